ghost use Rattle.gated.specs.Boarded.{board_of};
ghost use Rattle.gated.specs.Games.{game_of};

use crate::gated::Gated;
use arena::interface::Arena;
use arena::player::Player;

impl Arena for Gated {
    ghost game = { λ a. game_of (board_of a) };

    fn size(&self) -> usize {
        self.board.places() as usize
    }

    fn owner(&self, place: usize) -> Option<Player> {
        self.parts(place).map(|at| at.turn)
    }

    fn is_capture(&self, place: usize) -> Option<bool> {
        self.parts(place).map(|at| at.pursuer == at.runner)
    }

    fn move_count(&self, place: usize) -> Option<usize> {
        let at = self.parts(place)?;
        Some(self.exits(&at).len())
    }

    fn move_at(&self, place: usize, position: usize) -> Option<usize> {
        let at = self.parts(place)?;
        let to = *self.exits(&at).get(position)?;
        Some(self.moved(&at, to as usize))
    }

    // A board is sound by its own rules.
    fn first_unsound(&self) -> Option<usize> {
        None
    }
}
