ghost use Rattle.pursuit.specs.Checked.{BoardTrue, Cause};
ghost use Rattle.std.specs.Result.{MatchResult};

use crate::refusal::{BoardFault, BoardRefusal};
use crate::trapped::under_traps;
use checker::check;
use gated::Gated;
use std::alloc::Global;

// Whether the marks and both plans of a table are so for a board with traps on spots, on its own clock and on one without end; else why it is not accepted.
pub fn check_board(
    heap: Global,
    arena: &Gated,
    traps: &[u8],
    table: &[u32],
) -> Result<(), BoardFault>
    ensures { MatchResult result (λ _. BoardTrue arena.now.board traps.now table.now) (Cause arena.now.board traps.now table.now) }
{
    let bytes = arena.trap_bytes(heap, traps)?;
    check(&under_traps(arena, bytes.as_slice()), table).map_err(BoardRefusal::Table)
}
