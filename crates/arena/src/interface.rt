ghost use Rattle.std.specs.Prelude.{◌≡◌, ℕ, ◌<◌, Decides};
ghost use Rattle.arena.specs.Game.{Game};
ghost use Rattle.arena.specs.Questions.{capture_at, count_at, owner_at, target_at};
ghost use Rattle.arena.specs.Sound.{FirstUnsound, SoundAt};

use crate::player::Player;

pub const MOST_MOVES: usize = 65535;

// A finite pursuit game, asked by five questions. An implementation says by `game` which game it is, and shows that
// each question is answered by it; the rest follows.
pub trait Arena {
    ghost game: { Self → Game };

    // How many places there are.
    fn size(&self) -> usize
        ensures { result ≡ (game self.now).size };

    // Who moves at a place.
    fn owner(&self, place: usize) -> Option<Player>
        ensures { result ≡ owner_at (game self.now) place };

    // Whether it is a capture place.
    fn is_capture(&self, place: usize) -> Option<bool>
        ensures { result ≡ capture_at (game self.now) place };

    // How many moves it has.
    fn move_count(&self, place: usize) -> Option<usize>
        ensures { result ≡ count_at (game self.now) place };

    // Where the move at a position leads.
    fn move_at(&self, place: usize, position: usize) -> Option<usize>
        ensures { result ≡ target_at (game self.now) place position };

    // Whether it is a place of the arena, and sound.
    fn is_sound_at(&self, place: usize) -> bool
        ensures { Decides result ((place < (game self.now).size) × SoundAt (game self.now) place) }
    {
        let size = self.size();
        match self.move_count(place) {
            Some(0) => self.is_capture(place) == Some(true),
            Some(count) => {
                let leads_in = |position| self.move_at(place, position).is_some_and(|to| to < size);
                count <= MOST_MOVES && (0..count).all(leads_in)
            }
            None => false,
        }
    }

    // The first place that is not sound, by asking each place.
    fn scan_unsound(&self) -> Option<usize>
        ensures { FirstUnsound (game self.now) result }
    {
        (0..self.size()).find(|place| !self.is_sound_at(*place))
    }

    // The same. An arena that is sound by its own rules answers without a scan.
    fn first_unsound(&self) -> Option<usize>
        ensures { FirstUnsound (game self.now) result }
    {
        self.scan_unsound()
    }
}
