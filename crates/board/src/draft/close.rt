ghost use Rattle.board.specs.Boards.{gates_of, spots_of};
ghost use Rattle.board.specs.Drafts.{draft_gates, draft_spots};
ghost use Rattle.board.specs.SizeRefused.{Cause};
ghost use Rattle.std.specs.Prelude.{◌≡◌, MatchResult};

use crate::board::Board;
use crate::board::refusal::SizeRefusal;
use crate::draft::Draft;

impl Draft {
    // The board with these gates, or why there is none.
    pub fn close(self) -> Result<Board, SizeRefusal>
        ensures { MatchResult result (λ b. (spots_of b ≡ draft_spots self) × (gates_of b ≡ draft_gates self)) (Cause (draft_spots self) (draft_gates self)) }
    {
        Board::with(self)
    }
}
