ghost use Rattle.std.specs.Prelude.{◌≡◌};
ghost use Rattle.board.specs.Boards.{gates_of};
ghost use Rattle.gated.specs.Boarded.{board_of};
ghost use Rattle.gated.specs.Exits.{exits_at};
ghost use Rattle.gated.specs.Parted.{OnBoard, spot_of};

use crate::gated::Gated;
use crate::parts::Parts;

impl Gated {
    // The exits of the spot of the player to move.
    pub(crate) fn exits(&self, at: &Parts) -> &[u8]
        requires { OnBoard (board_of self.now) at.now }
        ensures { result.now ≡ exits_at (gates_of (board_of self.now)) at.now.step (spot_of at.now) }
    {
        let k = at.mover() * self.board.period() as usize + at.step;
        let start = self.index.starts[k] as usize;
        let end = self.index.starts[k + 1] as usize;
        &self.index.exits[start..end]
    }
}
