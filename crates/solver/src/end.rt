ghost use Rattle.arena.specs.Unfit.{Fits};
ghost use Rattle.rounds.specs.Words.{Finished, fresh};
ghost use Rattle.solver.specs.State.{is_live, is_settled};
ghost use Rattle.std.specs.Prelude.{◌≡◌, true, false, length, Decides};

use crate::phase::Phase;
use arena::Arena;
use rounds::{clear_table, finish_table};

// Finishes the table of a settled run, if it fits; clears that of any other run that has begun; says whether it finished.
pub(crate) fn end_table<A: Arena>(arena: &A, table: &mut [u32], phase: Phase) -> bool
    ensures decided { Decides result ((is_live phase ≡ true) × Fits (A.Arena.game arena.now) (length table.old) × (is_settled phase ≡ true)) }
    ensures finished { result ≡ true → Finished (A.Arena.game arena.now) table.old table.new }
    ensures cleared { is_live phase ≡ true → result ≡ false → table.new ≡ fresh (length table.old) }
    ensures untouched { is_live phase ≡ false → table.new ≡ table.old }
{
    if phase == Phase::Settled && finish_table(arena, table).is_ok() {
        return true;
    }
    if phase != Phase::Refused {
        clear_table(table);
    }
    false
}
