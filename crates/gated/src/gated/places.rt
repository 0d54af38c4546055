ghost use Rattle.std.specs.Prelude.{◌≡◌, ◌<◌, ◌≤◌, MatchOption};
ghost use Rattle.board.specs.Boards.{period_of, spots_of};
ghost use Rattle.board.specs.Gates.{places};
ghost use Rattle.gated.specs.Boarded.{board_of};
ghost use Rattle.gated.specs.Parted.{OnBoard, Parted};
ghost use Rattle.gated.specs.Places.{moved, next};

use crate::gated::Gated;
use crate::parts::Parts;
use arena::player::Player;

impl Gated {
    // The parts of a place's number; none off the board.
    pub fn parts(&self, place: usize) -> Option<Parts>
        ensures { MatchOption result (places (spots_of (board_of self.now)) (period_of (board_of self.now)) ≤ place) (Parted (spots_of (board_of self.now)) (period_of (board_of self.now)) place) }
    {
        if place >= self.board.places() as usize {
            return None;
        }
        let n = self.board.spots() as usize;
        let turn = if place / n / n % 2 == 0 {
            Player::Pursuer
        } else {
            Player::Runner
        };
        Some(Parts {
            step: place / n / n / 2,
            turn,
            pursuer: place / n % n,
            runner: place % n,
        })
    }

    // The place after the player to move has gone to a spot.
    pub(crate) fn moved(&self, at: &Parts, to: usize) -> usize
        requires on_board { OnBoard (board_of self.now) at.now }
        requires to_bound { to < spots_of (board_of self.now) }
        ensures { result ≡ moved (spots_of (board_of self.now)) (next (period_of (board_of self.now))) at.now.turn at.now.step at.now.pursuer at.now.runner to }
    {
        let after = match at.turn {
            Player::Pursuer => Parts {
                turn: Player::Runner,
                pursuer: to,
                ..*at
            },
            Player::Runner => Parts {
                step: (at.step + 1) % self.board.period() as usize,
                turn: Player::Pursuer,
                runner: to,
                ..*at
            },
        };
        after.number(&self.board)
    }
}
