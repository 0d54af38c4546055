ghost use Rattle.marks.specs.Picks.{Greatest, Least, Picked};
ghost use Rattle.marks.specs.Tallies.{Tallied};
ghost use Rattle.marks.specs.Unique.{TheOne};

use crate::pick::{Pick, PursuerPick, RunnerPick};
use crate::tally::Tally;
use crate::wish::{self, Wish};
use joining::pair::Pair;
use joining::row::{fold_both, fold_row};

// The best mark of the row by a wish, at its first position; positions go on from `first` and begin again at 0 after the last.
pub fn pick<W: Wish>(row: &[u32], first: u64) -> Pick<W>
    ensures { TheOne (Picked W.order first row.now) result.entry }
{
    fold_row(row, first)
}

// The least mark of the row, at its first position; positions go on likewise.
pub fn pursuer_pick(row: &[u32], first: u64) -> PursuerPick
    ensures { TheOne (Picked Least first row.now) result.entry }
{
    pick::<wish::Least>(row, first)
}

// The greatest mark of the row, at its first position; positions go on likewise.
pub fn runner_pick(row: &[u32], first: u64) -> RunnerPick
    ensures { TheOne (Picked Greatest first row.now) result.entry }
{
    pick::<wish::Greatest>(row, first)
}

// How many marks of each kind the row has, and its longest count.
pub fn tally(row: &[u32]) -> Tally
    ensures { TheOne (Tallied row.now) result }
{
    fold_row(row, 0)
}

// The runner's pick and the tally of the row in one pass.
pub fn runner_pick_and_tally(row: &[u32]) -> Pair<RunnerPick, Tally>
    ensures picked { TheOne (Picked Greatest 0 row.now) result.first.entry }
    ensures tallied { TheOne (Tallied row.now) result.second }
{
    fold_both(row, 0)
}
