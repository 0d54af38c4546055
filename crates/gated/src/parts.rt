ghost use Rattle.board.specs.Boards.{spots_of};
ghost use Rattle.gated.specs.Parted.{OnBoard};
ghost use Rattle.gated.specs.Places.{mover, number, turn_number};
ghost use Rattle.std.specs.Prelude.{◌≡◌};

use arena::player::Player;
use board::board::Board;

// What a place's number says.
#[derive(Clone, Copy)]
pub struct Parts {
    pub step: usize,
    pub turn: Player,
    pub pursuer: usize,
    pub runner: usize,
}

impl Parts {
    // The spot of the player to move.
    pub fn mover(&self) -> usize
        ensures { result ≡ mover self.now.turn self.now.pursuer self.now.runner }
    {
        match self.turn {
            Player::Pursuer => self.pursuer,
            Player::Runner => self.runner,
        }
    }

    // The number of the place of a board that has these parts.
    pub(crate) fn number(&self, board: &Board) -> usize
        requires { OnBoard board.now self.now }
        ensures { result ≡ number (spots_of board.now) self.now.step (turn_number self.now.turn) self.now.pursuer self.now.runner }
    {
        let turn = match self.turn {
            Player::Pursuer => 0,
            Player::Runner => 1,
        };
        let spots = board.spots() as usize;
        ((self.step * 2 + turn) * spots + self.pursuer) * spots + self.runner
    }
}
