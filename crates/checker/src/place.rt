ghost use Rattle.std.specs.Prelude.{◌≡◌, ℕ, ◌<◌, ◌++◌, false, true, length, Decides, MatchBool};
ghost use Rattle.std.specs.Option.{option_map};
ghost use Rattle.arena.specs.Game.{caught, degree, move};
ghost use Rattle.arena.specs.Questions.{target_at};
ghost use Rattle.arena.specs.Tables.{marks_of};
ghost use Rattle.arena.specs.Unfit.{Fits};
ghost use Rattle.checker.specs.Obeys.{NoBetter, NoneBetter, ObeysAt, next_mark};

use arena::{Arena, Player};
use marks::mark::{NEVER, NONE};

// A table that fits an arena: its first half has a mark for each place, its second half a move word.
#[derive(Drop)]
pub(crate) struct Fitting<'a, 't, A: Arena> {
    arena: &'a A,
    marks: &'t [u32],
    moves: &'t [u32],
    // The arena is sound, and there are two words for each of its places.
    ghost fits: { Fits (A.Arena.game arena.now) (length (marks.now ++ moves.now)) },
    // There is one mark for each place.
    ghost half: { length marks.now ≡ (A.Arena.game arena.now).size },
}

// The mark that a best move leads to.
fn next_mark(mark: u32) -> u32
    requires { 0 < mark }
    ensures { result ≡ next_mark mark }
{
    if mark < NEVER { mark - 1 } else { NEVER }
}

// Whether a mark is no better for the player than the one wanted. It asks for the player at each mark: with the
// comparison passed in as an `impl Fn`, the proof of the method that called it for each move did not close.
fn is_no_better(player: Player, wanted: u32, mark: u32) -> bool
    ensures { Decides result (NoBetter player wanted mark) }
{
    match player {
        Player::Pursuer => wanted <= mark,
        Player::Runner => mark <= wanted,
    }
}

impl<'a, 't, A: Arena> Fitting<'a, 't, A> {
    // A table that fits an arena, by its halves.
    pub(crate) fn new(arena: &'a A, table: &'t [u32]) -> Fitting<'a, 't, A>
        requires { Fits (A.Arena.game arena.now) (length table.now) }
        ensures arena { result.arena.now ≡ arena.now }
        ensures table { result.marks.now ++ result.moves.now ≡ table.now }
    {
        let (marks, moves) = table.split_at(arena.size());
        Fitting {
            arena,
            marks,
            moves,
        }
    }

    // The mark that a move leads to.
    fn mark_after(&self, place: usize, position: usize) -> Option<u32>
        ensures { let game = A.Arena.game self.now.arena.now in result ≡ option_map (marks_of (self.now.marks.now ++ self.now.moves.now)) (target_at game place position) }
    {
        Some(self.marks[self.arena.move_at(place, position)?])
    }

    // Whether no move of the place leads to a mark that is better for the player.
    fn none_better(&self, place: usize, player: Player, wanted: u32) -> bool
        requires { place < (A.Arena.game self.now.arena.now).size }
        ensures { Decides result (NoneBetter (A.Arena.game self.now.arena.now) (self.now.marks.now ++ self.now.moves.now) place player wanted) }
    {
        let count = self.arena.move_count(place).unwrap_or(0);
        (0..count).all(|position| {
            self.mark_after(place, position)
                .is_none_or(|mark| is_no_better(player, wanted, mark))
        })
    }

    // Whether the words of a place that is no capture place obey the table rules.
    fn obeys_open(&self, place: usize) -> bool
        requires place { place < (A.Arena.game self.now.arena.now).size }
        requires free { caught (A.Arena.game self.now.arena.now).rules place ≡ false }
        ensures { Decides result (ObeysAt (A.Arena.game self.now.arena.now) (self.now.marks.now ++ self.now.moves.now) place) }
    {
        let mark = self.marks[place];
        if mark == 0 || (mark < NEVER && mark as usize >= self.marks.len()) {
            return false;
        }
        let Some(chosen) = self.arena.move_at(place, self.moves[place] as usize) else {
            return false;
        };
        let wanted = next_mark(mark);
        if self.marks[chosen] != wanted {
            return false;
        }
        match self.arena.owner(place).unwrap() {
            // where the runner is never caught, only the move that it chose counts
            Player::Runner if mark == NEVER => true,
            player => self.none_better(place, player, wanted),
        }
    }

    // Whether the words of a place obey the table rules.
    pub(crate) fn obeys(&self, place: usize) -> bool
        requires { place < (A.Arena.game self.now.arena.now).size }
        ensures { Decides result (ObeysAt (A.Arena.game self.now.arena.now) (self.now.marks.now ++ self.now.moves.now) place) }
    {
        match self.arena.is_capture(place) {
            Some(true) => self.marks[place] == 0 && self.moves[place] == NONE,
            _ => self.obeys_open(place),
        }
    }
}
