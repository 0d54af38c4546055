ghost use Rattle.std.specs.Prelude.{◌≡◌, ℕ, true, false, length, MatchResult};
ghost use Rattle.arena.specs.Unfit.{Cause, Fits};
ghost use Rattle.rounds.specs.Words.{fresh};
ghost use Rattle.solver.specs.Ended.{Ended};
ghost use Rattle.solver.specs.FinishRefused.{CauseOpen, MayFinish};
ghost use Rattle.solver.specs.Progress.{Progress};
ghost use Rattle.solver.specs.Reached.{Reached};
ghost use Rattle.solver.specs.State.{AcceptsRound, Begins, live_of, state_of};
ghost use Rattle.solver.specs.Whole.{Whole};

use crate::counters::Counters;
use crate::end::end_table;
use crate::finish_refusal::FinishRefusal;
use crate::finished::Finished;
use crate::phase::Phase;
use arena::unfit::Unfit;
use arena::{Arena, admitted};
use rounds::round::LAST_ROUND;
use rounds::{begin_table, clear_table, round_table};

// A run over a table. It may not be let go: it is finished or abandoned, and either spends it.
// One whose begin was refused works on no words; it keeps the table untouched.
pub struct Run<'a> {
    table: &'a mut [u32],
    made: Counters,
    phase: Phase,
}

// Whether a run can begin on the arena with the table, or why not. It makes no run.
// It is `admitted` under the name that goes with `begin`: no plainer to call that, which takes a number of words.
pub fn can_begin<A: Arena>(arena: &A, table: &[u32]) -> Result<(), Unfit>
    ensures { MatchResult result (λ _. Fits (A.Arena.game arena.now) (length table.now)) (Cause (A.Arena.game arena.now) (length table.now)) }
{
    admitted(arena, table.len())
}

// Begins a run; one made against a refusal has every word as it was.
pub fn begin<'a, A: Arena>(arena: &A, table: &'a mut [u32]) -> Run<'a>
    ensures bound { result.table.ghost_name ≡ table.entry.ghost_name }
    ensures begun { Begins (A.Arena.game arena.now) table.old result }
    ensures reached { Fits (A.Arena.game arena.now) (length table.old) → Reached (A.Arena.game arena.now) (state_of result) }
{
    let phase = match begin_table(arena, table) {
        Ok(()) => Phase::Open,
        Err(_) => Phase::Refused,
    };
    Run {
        table,
        made: Counters::default(),
        phase,
    }
}

impl<'a> Run<'a> {
    // How many words the run works on.
    fn width(&self) -> usize
        ensures { result ≡ length (state_of self.now).words }
    {
        match self.phase {
            Phase::Refused => 0,
            Phase::Open | Phase::Settled => self.table.len(),
        }
    }

    // One round, told the arena; it says how many places it marked. A settled run accepts it and stays as it is.
    pub fn round<A: Arena>(&mut self, arena: &A) -> Result<usize, Unfit>
        ensures bound { self.new.table.ghost_name ≡ self.old.table.ghost_name }
        ensures live { live_of self.new ≡ live_of self.old }
        ensures told { MatchResult result (AcceptsRound (A.Arena.game arena.now) (state_of self.old) (state_of self.new)) (λ e. Cause (A.Arena.game arena.now) (length (state_of self.old).words) e × (self.new ≡ self.old)) }
        ensures reached { Reached (A.Arena.game arena.now) (state_of self.old) → Reached (A.Arena.game arena.now) (state_of self.new) × Progress (A.Arena.game arena.now) (state_of self.new) }
    {
        if self.phase != Phase::Open {
            admitted(arena, self.width())?;
            return Ok(0);
        }
        let next = self.made.rounds.saturating_add(1).min(LAST_ROUND);
        let made = round_table(arena, self.table, next)?;
        self.made.rounds = next;
        self.made.looks = self.made.looks.saturating_add(made.looks);
        self.phase = Phase::after_round(made.marked);
        Ok(made.marked)
    }

    // Whether the run can be finished, told the arena, or why not. It keeps the run as it was.
    pub fn can_finish<A: Arena>(&self, arena: &A) -> Result<(), FinishRefusal>
        ensures { MatchResult result (λ _. MayFinish (A.Arena.game arena.now) (state_of self.now)) (CauseOpen (A.Arena.game arena.now) (state_of self.now)) }
    {
        admitted(arena, self.width())?;
        if self.phase != Phase::Settled {
            return Err(FinishRefusal::Unsettled);
        }
        Ok(())
    }

    // Finishes the run, told the arena; one that cannot be finished is abandoned, and its finished table is empty.
    pub fn finish<A: Arena>(self, arena: &A) -> Finished<'a>
        ensures ended { Ended (A.Arena.game arena.now) self.entry result.table.now result.accepted }
        ensures counted { result.made ≡ self.entry.made }
    {
        let Run { table, made, phase } = self;
        let accepted = end_table(arena, table, phase);
        Finished {
            table,
            made,
            accepted,
        }
    }

    // Makes rounds until the run is settled.
    pub(crate) fn settle<A: Arena>(&mut self, arena: &A)
        requires { Reached (A.Arena.game arena.now) (state_of self.old) }
        ensures bound { self.new.table.ghost_name ≡ self.old.table.ghost_name }
        ensures reached { Reached (A.Arena.game arena.now) (state_of self.new) }
        ensures settled { (state_of self.new).settled ≡ true }
    {
        'rounds: while self.round(arena).unwrap_or(0) != 0 {}
    }

    // Ends a settled run in place as a finish does: the table is the caller's again, who knows what it holds.
    // `finish` cannot serve here: its loan goes into the result, and after that no clause can name the caller's table.
    pub(crate) fn close<A: Arena>(self, arena: &A) -> Counters
        requires reached { Reached (A.Arena.game arena.now) (state_of self) }
        requires settled { (state_of self).settled ≡ true }
        ensures { Whole (A.Arena.game arena.now) result.rounds result.looks self.exit.0.now }
    {
        let Run { table, made, phase } = self;
        end_table(arena, table, phase);
        made
    }

    // Abandons the run: every mark blank and no move, but for a run whose begin was refused, which has touched no word.
    pub fn abandon(self)
        ensures live { live_of self.entry ≡ true → self.exit.0.now ≡ fresh (length self.entry.table.now) }
        ensures dead { live_of self.entry ≡ false → self.exit.0.now ≡ self.entry.table.now }
    {
        let Run {
            table,
            made: _,
            phase,
        } = self;
        if phase != Phase::Refused {
            clear_table(table);
        }
    }
}
