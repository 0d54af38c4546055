ghost use Rattle.trap.specs.TrapRefused.{Cause, Exact};
ghost use Rattle.trap.specs.Traps.{Traps, is_trapped, with_traps};
ghost use Rattle.std.specs.Prelude.{◌≡◌, MatchResult};

use crate::refusal::TrapRefusal;
use arena::{Arena, Player, first_above};

// The byte of a trap, and the greatest that there is.
const TRAP: u8 = 1;

// An arena with traps: one byte for each place, where 1 adds a capture place. All else is from the arena below, so traps can be piled.
#[derive(Drop)]
pub struct Trapped<'b, 't, A> {
    below: &'b A,
    traps: &'t [u8],
}

// Whether the byte of a place is 1.
fn is_trap(traps: &[u8], place: usize) -> bool
    ensures { result ≡ is_trapped traps.now place }
{
    traps.get(place) == Some(&TRAP)
}

impl<'b, 't, A: Arena> Trapped<'b, 't, A> {
    // The arena with these traps, or the first cause why there is none.
    pub fn new(below: &'b A, traps: &'t [u8]) -> Result<Trapped<'b, 't, A>, TrapRefusal>
        ensures { MatchResult result (λ t. (t.below.now ≡ below.now) × (t.traps.now ≡ traps.now) × Traps (A.Arena.game below.now) traps.now) (Cause (A.Arena.game below.now) traps.now) }
    {
        if traps.len() != below.size() {
            return Err(TrapRefusal::Length);
        }
        // from a place to a refusal: `map_or` would put the good case first, and read no plainer
        match first_above(traps, TRAP) {
            Some(place) => Err(TrapRefusal::Byte { place }),
            None => Ok(Trapped { below, traps }),
        }
    }
}

impl<'b, 't, A: Arena> Arena for Trapped<'b, 't, A> {
    ghost game = { λ s. with_traps (A.Arena.game s.below.now) s.traps.now };

    fn size(&self) -> usize {
        self.below.size()
    }

    fn owner(&self, place: usize) -> Option<Player> {
        self.below.owner(place)
    }

    fn is_capture(&self, place: usize) -> Option<bool> {
        let capture = self.below.is_capture(place)?;
        Some(capture || is_trap(self.traps, place))
    }

    fn move_count(&self, place: usize) -> Option<usize> {
        self.below.move_count(place)
    }

    fn move_at(&self, place: usize, position: usize) -> Option<usize> {
        self.below.move_at(place, position)
    }

    // A trap makes no place unsound, so only an arena that is unsound below is scanned.
    fn first_unsound(&self) -> Option<usize> {
        self.below.first_unsound()?;
        self.scan_unsound()
    }
}

// The refusals of traps exclude each other and the lawful bytes.
pub fn refusals_exclude()
    ensures { Exact }
{
    ()
}
