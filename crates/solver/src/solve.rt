ghost use Rattle.std.specs.Prelude.{◌≡◌, ℕ, true, length, take, MatchResult};
ghost use Rattle.arena.specs.Unfit.{Cause, Fits};
ghost use Rattle.marks.specs.Tallies.{Tallied};
ghost use Rattle.marks.specs.Unique.{TheOne};
ghost use Rattle.solver.specs.Reached.{Reached};
ghost use Rattle.solver.specs.Shown.{shown};
ghost use Rattle.solver.specs.State.{state_of};
ghost use Rattle.solver.specs.Whole.{Whole};

use crate::finished::Finished;
use crate::run::{Run, begin, can_begin};
use arena::unfit::Unfit;
use arena::{Arena, admitted};
use marks::row::tally;
use marks::tally::Tally;

// What a whole solve tells: the rounds and looks made, and the tally of all marks.
// The first two are no `Counters`: callers read them by name, and that struct is the crate's own.
#[derive(Clone, Copy)]
pub struct Solved {
    pub rounds: u32,
    pub looks: u64,
    pub tally: Tally,
}

// A run on the arena with the table, after rounds until it is settled.
fn settled_run<'a, A: Arena>(arena: &A, table: &'a mut [u32]) -> Run<'a>
    requires { Fits (A.Arena.game arena.now) (length table.old) }
    ensures bound { result.table.ghost_name ≡ table.entry.ghost_name }
    ensures reached { Reached (A.Arena.game arena.now) (state_of result) }
    ensures settled { (state_of result).settled ≡ true }
{
    let mut run = begin(arena, table);
    run.settle(arena);
    run
}

// Solves the game of an arena into the table: for each place its mark, and then for each its move word.
pub fn solve<A: Arena>(arena: &A, table: &mut [u32]) -> Result<Solved, Unfit>
    ensures { MatchResult result (λ s. Fits (A.Arena.game arena.now) (length table.old) × Whole (A.Arena.game arena.now) s.rounds s.looks table.new × TheOne (Tallied (take (A.Arena.game arena.now).size table.new)) s.tally) (λ e. Cause (A.Arena.game arena.now) (length table.old) e × (table.new ≡ table.old)) }
{
    admitted(arena, table.len())?;
    let made = settled_run(arena, table).close(arena);
    Ok(Solved {
        rounds: made.rounds,
        looks: made.looks,
        tally: tally(&table[0..arena.size()]),
    })
}

// The same, with the table given back as a finished one, to read.
pub fn solve_to_read<'a, A: Arena>(arena: &A, table: &'a mut [u32]) -> Result<Finished<'a>, Unfit>
    ensures { MatchResult result (λ f. Fits (A.Arena.game arena.now) (length table.old) × (f.accepted ≡ true) × (length (shown f) ≡ length table.old) × Whole (A.Arena.game arena.now) f.made.rounds f.made.looks (shown f)) (Cause (A.Arena.game arena.now) (length table.old)) }
{
    can_begin(arena, table)?;
    let run = settled_run(arena, table);
    Ok(run.finish(arena))
}
