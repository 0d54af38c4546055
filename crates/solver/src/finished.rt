ghost use Rattle.std.specs.Prelude.{◌≡◌};
ghost use Rattle.marks.specs.Tallies.{Tallied};
ghost use Rattle.marks.specs.Unique.{TheOne};
ghost use Rattle.solver.specs.Shown.{shown, shown_marks};

use crate::counters::Counters;
use marks::row::tally;
use marks::tally::Tally;

// A finished table, to read. That of a finish that was declined is empty.
// The flag stands beside the table, and no `Option` holds it: a declined finish promises what it left in the table, which
// a clause can name only here, since the loan has gone into the result (a clause on what its lender ends as got no proof).
#[derive(Clone, Copy)]
pub struct Finished<'a> {
    pub(crate) table: &'a [u32],
    pub(crate) made: Counters,
    pub(crate) accepted: bool,
}

impl<'a> Finished<'a> {
    // The words: a mark for each place, then a move word for each.
    pub fn words(&self) -> &[u32]
        ensures { result.now ≡ shown self.now }
    {
        if self.accepted { self.table } else { &[] }
    }

    // The marks.
    pub fn marks(&self) -> &[u32]
        ensures { result.now ≡ shown_marks self.now }
    {
        let words = self.words();
        &words[0..words.len() / 2]
    }

    // Whether the finish was accepted.
    pub fn is_accepted(&self) -> bool
        ensures { result ≡ self.now.accepted }
    {
        self.accepted
    }

    // The rounds that the run made.
    pub fn rounds(&self) -> u32
        ensures { result ≡ self.now.made.rounds }
    {
        self.made.rounds
    }

    // The looks that the run made.
    pub fn looks(&self) -> u64
        ensures { result ≡ self.now.made.looks }
    {
        self.made.looks
    }

    // The tally of all marks.
    pub fn tally(&self) -> Tally
        ensures { TheOne (Tallied (shown_marks self.now)) result }
    {
        tally(self.marks())
    }
}
