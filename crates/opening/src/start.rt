ghost use Rattle.std.specs.Prelude.{◌≡◌, ℕ, ◌<◌, MatchResult};
ghost use Rattle.board.specs.Boards.{spots_of};
ghost use Rattle.opening.specs.Openings.{Opens};
ghost use Rattle.opening.specs.Refused.{Cause, SameSize};
ghost use Rattle.opening.specs.Rows.{Replies};
ghost use Rattle.solver.specs.Shown.{shown};

use crate::refusal::OpeningRefusal;
use crate::rows::Rows;
use board::Board;
use marks::tally::Tally;
use solver::Finished;

// Where a game opens: the two spots, the mark there, and the tally of the pursuer spot's row.
#[derive(Clone, Copy)]
pub struct Opening {
    pub pursuer: usize,
    pub runner: usize,
    pub mark: u32,
    pub tally: Tally,
}

// The opening of a board by a finished table: the first pursuer spot whose greatest mark is least, and the first runner spot with it.
pub fn opening_of(board: &Board, finished: &Finished) -> Result<Opening, OpeningRefusal>
    ensures { MatchResult result (λ o. SameSize board.now (shown finished.now) × Opens (spots_of board.now) (shown finished.now) o) (λ e. (e ≡ OpeningRefusal.Table) × Cause board.now (shown finished.now) 0 e) }
{
    let rows = Rows::of(board, finished.words())?;
    let mut best = rows.start_at(0);
    // `min_by_key` promises that no start is better than its own, and not that its own is the first of the best; a fold would read
    // no plainer
    for pursuer in 1..rows.spots() {
        let next = rows.start_at(pursuer);
        if next.mark < best.mark {
            best = next;
        }
    }
    Ok(best)
}

// The runner's reply to a pursuer start: the first runner spot with the greatest mark of its row.
pub fn reply_to(board: &Board, finished: &Finished, spot: usize) -> Result<usize, OpeningRefusal>
    ensures { MatchResult result (λ v. SameSize board.now (shown finished.now) × (spot < spots_of board.now) × ((m : ℕ) × Replies (spots_of board.now) (shown finished.now) spot m v)) (Cause board.now (shown finished.now) spot) }
{
    let rows = Rows::of(board, finished.words())?;
    if spot >= rows.spots() {
        return Err(OpeningRefusal::Spot);
    }
    Ok(rows.start_at(spot).runner)
}
