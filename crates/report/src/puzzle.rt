ghost use Rattle.std.specs.Prelude.{◌≡◌, true, IfOk, MatchResult};
ghost use Rattle.board.specs.Boards.{spots_of};
ghost use Rattle.gated.specs.Traps.{all_below};
ghost use Rattle.pursuit.specs.Checked.{BoardTrue};
ghost use Rattle.pursuit.specs.declared.refusal.BoardRefusal.TheVariants.{Traps};
ghost use Rattle.report.specs.Reports.{ToldOf};
ghost use Rattle.report.specs.declared.failure.Failure.TheVariants.{NoMemory};

use crate::failure::Failure;
use crate::report::Report;
use gated::Gated;
use gated::refusal::TrapRefusal;
use opening::opening_of;
use pursuit::BoardRefusal;
use pursuit::check_board::check_board;
use pursuit::solve_board::solve_board;
use solver::solve::Solved;
use std::alloc::Global;

// The traps are on the board and the table has its size, so only memory can be wanting.
fn memory_wanting<W: Drop>(_why: BoardRefusal<W>) -> Failure
    requires { _why ≡ Traps TrapRefusal.NoMemory }
    ensures { result ≡ NoMemory }
{
    Failure::NoMemory
}

// The arena of a board, with traps on spots of it.
#[derive(Drop)]
pub(crate) struct Puzzle {
    pub(crate) arena: Gated,
    pub(crate) traps: Vec<u8>,
    ghost below: { all_below (spots_of arena.board) traps.items ≡ true },
}

impl Puzzle {
    // Has a solved table judged by the checker, which knows nothing of the solver. It accepts what was solved.
    fn judge(&self, heap: Global, words: &[u32]) -> Result<(), Failure>
        requires { BoardTrue self.now.arena.board self.now.traps.items words.now }
        ensures { MatchResult result (λ _. BoardTrue self.now.arena.board self.now.traps.items words.now) (λ why. why ≡ NoMemory) }
    {
        check_board(heap, &self.arena, self.traps.as_slice(), words).map_err(memory_wanting)
    }

    // Solves the board in a table of its own, and has the table judged.
    pub(crate) fn solve(&self, heap: Global) -> Result<Report, Failure>
        ensures { MatchResult result (ToldOf self.now.arena.board self.now.traps.items) (λ why. why ≡ NoMemory) }
    {
        let board = self.arena.board();
        let places = board.places();
        let mut table = vec![in heap; 0u32; 2 * places as usize]?;
        let traps = self.traps.as_slice();
        let finished = solve_board(heap, &self.arena, traps, table.as_mut_slice()).map_err(
            memory_wanting,
        )?;
        self.judge(heap, finished.words())?;
        let Ok(opening) = opening_of(board, &finished) else {
            unreachable()
        };
        let solved = Solved {
            rounds: finished.rounds(),
            looks: finished.looks(),
            tally: finished.tally(),
        };
        Ok(Report {
            spots: board.spots(),
            gates: board.gates().len(),
            period: board.period(),
            places,
            solved,
            opening,
        })
    }
}
