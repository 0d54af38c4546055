ghost use Rattle.std.specs.Prelude.{◌≡◌, ◌<◌, ◌≤◌, true, ◌⊎◌, MatchResult};
ghost use Rattle.board.specs.Boards.{spots_of};
ghost use Rattle.gated.specs.Traps.{all_below};
ghost use Rattle.pursuit.specs.Claim.{WholeClaim};
ghost use Rattle.report.specs.Reports.{Fails, Reports, ToldOf, places_of};
ghost use Rattle.report.specs.declared.failure.Failure.TheVariants.{NoMemory, TooLarge};

use crate::failure::Failure;
use crate::puzzle::Puzzle;
use crate::report::Report;
use gated::Gated;
use sheet::read::read_sheet;
use sheet::sheet::Sheet;
use std::alloc::Global;

// The program takes no longer sheets, and no larger boards.
pub const MOST_BYTES: usize = 4096;

pub const MOST_PLACES: u32 = 4096;

// Solves what a sheet writes.
fn solve_written(heap: Global, written: Sheet) -> Result<Report, Failure>
    requires { all_below (spots_of written.board) written.traps.items ≡ true }
    ensures { MatchResult result (λ told. (places_of written.board ≤ 4096) × ToldOf written.board written.traps.items told) (λ why. ((why ≡ TooLarge) × (4096 < places_of written.board)) ⊎ (why ≡ NoMemory)) }
{
    let Sheet { board, traps } = written;
    if board.places() > MOST_PLACES {
        return Err(Failure::TooLarge);
    }
    let arena = Gated::new(heap, board)?;
    Puzzle { arena, traps }.solve(heap)
}

// Reads a sheet and solves its board with its traps.
#[tactic(auto, using(pursuit::proofs::Claiming::whole_claim))]
pub fn solve_sheet(heap: Global, sheet: &[u8]) -> Result<Report, Failure>
    ensures claim { WholeClaim }
    ensures told { MatchResult result (Reports sheet.now) (Fails sheet.now) }
{
    if sheet.len() > MOST_BYTES {
        return Err(Failure::TooLarge);
    }
    let written = read_sheet(heap, sheet)?;
    solve_written(heap, written)
}
