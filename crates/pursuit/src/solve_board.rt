ghost use Rattle.pursuit.specs.Claim.{WholeClaim};
ghost use Rattle.pursuit.specs.Refused.{BoardCause};
ghost use Rattle.pursuit.specs.Solved.{BoardSolved};
ghost use Rattle.solver.specs.Shown.{shown};
ghost use Rattle.std.specs.Prelude.{◌≡◌, true, length, MatchResult};

use crate::refusal::BoardRefusal;
use crate::trapped::under_traps;
use arena::unfit::Unfit;
use gated::Gated;
use solver::Finished;
use solver::solve::solve_to_read;
use std::alloc::Global;

// Solves a board with traps on spots into the table, and gives it back finished, to read.
#[tactic(auto, using(crate::proofs::Claiming::whole_claim))]
pub fn solve_board<'a>(
    heap: Global,
    arena: &Gated,
    traps: &[u8],
    table: &'a mut [u32],
) -> Result<Finished<'a>, BoardRefusal<Unfit>>
    ensures claim { WholeClaim }
    ensures solved { MatchResult result (λ f. (f.accepted ≡ true) × (length (shown f) ≡ length table.old) × BoardSolved arena.now.board traps.now f.made.rounds f.made.looks (shown f)) (BoardCause arena.now.board traps.now (length table.old)) }
{
    let bytes = arena.trap_bytes(heap, traps)?;
    let trapped = under_traps(arena, bytes.as_slice());
    solve_to_read(&trapped, table).map_err(BoardRefusal::Table)
}
