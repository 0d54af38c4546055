ghost use Rattle.std.specs.Prelude.{ℕ, ◌<◌, length, MatchOption};
ghost use Rattle.arena.specs.Unfit.{Fits};
ghost use Rattle.checker.specs.Obeys.{ObeysAt};
ghost use Rattle.checker.specs.Verdicts.{FirstFault, OneVerdict, Verdict};

use crate::place::Fitting;
use crate::refusal::CheckRefusal;
use arena::{Arena, admitted};

// The first place that breaks the table rules.
fn first_fault<A: Arena>(arena: &A, table: &[u32]) -> Option<usize>
    requires { Fits (A.Arena.game arena.now) (length table.now) }
    ensures { MatchOption result ((p : ℕ) → p < (A.Arena.game arena.now).size → ObeysAt (A.Arena.game arena.now) table.now p) (FirstFault (A.Arena.game arena.now) table.now) }
{
    let fitting = Fitting::new(arena, table);
    (0..arena.size()).find(|place| !fitting.obeys(*place))
}

// Whether the marks and both plans of a table are so in the arena's game; else why it is not accepted, and at which place first.
pub fn check<A: Arena>(arena: &A, table: &[u32]) -> Result<(), CheckRefusal>
    ensures { Verdict (A.Arena.game arena.now) table.now result }
{
    admitted(arena, table.len())?;
    // from a place to a refusal: `map_or` would put the good case first, and read no plainer
    match first_fault(arena, table) {
        Some(place) => Err(CheckRefusal::Fault { place }),
        None => Ok(()),
    }
}

// A table has one answer: what is accepted is not refused, and the causes exclude each other.
pub fn one_verdict()
    ensures { OneVerdict }
{
    ()
}
