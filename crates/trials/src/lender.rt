ghost use Rattle.arena.specs.Unfit.{Fits};
ghost use Rattle.rounds.specs.Words.{fresh};
ghost use Rattle.std.specs.Prelude.{◌≡◌, length};

use arena::Arena;
use solver::begin;

// Lends a table to a run that makes a round and is abandoned. A lender knows its own table afterwards, by the contracts
// of the run alone: cleared where the arena and the table fit, and as it was where the begin was refused.
pub fn try_once<A: Arena>(arena: &A, table: &mut [u32])
    ensures fits { Fits (A.Arena.game arena.now) (length table.old) → table.new ≡ fresh (length table.old) }
    ensures unfit { (Fits (A.Arena.game arena.now) (length table.old) → ⊥) → table.new ≡ table.old }
{
    let mut run = begin(arena, table);
    let _ = run.round(arena);
    run.abandon();
}
