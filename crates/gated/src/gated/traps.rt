ghost use Rattle.board.specs.Boards.{period_of, spots_of};
ghost use Rattle.gated.specs.Boarded.{board_of};
ghost use Rattle.gated.specs.TrapRefused.{Cause};
ghost use Rattle.gated.specs.Traps.{all_below, spot_byte, trap_bytes};
ghost use Rattle.std.specs.List.{range_with_len};
ghost use Rattle.std.specs.Prelude.{◌≡◌, true, map, IfOk, MatchResult};

use crate::gated::Gated;
use crate::refusal::TrapRefusal;
use std::alloc::{AllocError, Global};

// Whether each trap is on a spot of the board.
fn are_below(traps: &[u8], spots: u8) -> bool
    ensures { result ≡ all_below spots traps.now }
{
    traps.iter().all(|trap| *trap < spots)
}

// A byte for each spot: 1 on a trap.
fn spot_bytes(heap: Global, traps: &[u8], spots: u8) -> Result<Vec<u8>, AllocError>
    ensures { IfOk result (λ v. v.items ≡ map (spot_byte traps.now) (range_with_len 0 spots)) }
{
    (0..spots)
        .map(|spot| u8::from(traps.contains(&spot)))
        .collect(heap)
}

impl Gated {
    // A byte for each place: 1 where the runner stands on a trap.
    fn place_bytes(&self, heap: Global, traps: &[u8]) -> Result<Vec<u8>, AllocError>
        ensures { IfOk result (λ v. v.items ≡ trap_bytes (spots_of (board_of self.now)) (period_of (board_of self.now)) traps.now) }
    {
        let row = spot_bytes(heap, traps, self.board.spots())?;
        // where the runner stands counts fastest, so the row comes again and again; a remainder for each place is slower
        let rows = self.board.places() / u32::from(self.board.spots());
        row.repeat(heap, rows as usize)
    }

    // The trap bytes of traps on spots, or why there are none.
    pub fn trap_bytes(&self, heap: Global, traps: &[u8]) -> Result<Vec<u8>, TrapRefusal>
        ensures { MatchResult result (λ v. (all_below (spots_of (board_of self.now)) traps.now ≡ true) × (v.items ≡ trap_bytes (spots_of (board_of self.now)) (period_of (board_of self.now)) traps.now)) (Cause (spots_of (board_of self.now)) traps.now) }
    {
        if !are_below(traps, self.board.spots()) {
            return Err(TrapRefusal::OffBoard);
        }
        Ok(self.place_bytes(heap, traps)?)
    }
}
