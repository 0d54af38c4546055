ghost use Rattle.std.specs.Prelude.{◌≡◌, ℕ, ◌+◌, ◌*◌, ◌<◌, ◌≤◌, min, length, Decides};
ghost use Rattle.arena.specs.Game.{degree};
ghost use Rattle.arena.specs.Sound.{SoundAt};
ghost use Rattle.marks.specs.Picks.{Picked};
ghost use Rattle.rounds.specs.Scans.{seen_row};
ghost use Rattle.rounds.specs.Words.{Best, Ready, marks_of, order_of};

use arena::{Arena, Player};
use joining::joining::Joining;
use marks::mark::NONE;
use marks::pick::{Entry, Pick};
use marks::wish::{Greatest, Least, Wish};

// What the looks at the moves of one place came to, and how many they were.
#[derive(Clone, Copy)]
struct Looked {
    entry: Option<Entry>,
    looks: u64,
}

// What one place has for the player who moves there: the move word, whether it is ready, and the looks made.
// The word is there whether it is ready or not: a finish writes that of a place that is not.
#[derive(Clone, Copy)]
pub(crate) struct Scan {
    pub(crate) word: u32,
    pub(crate) ready: bool,
    pub(crate) looks: u64,
}

// A sound place of an arena, with a table that has a mark for each place of it. A mark counts only below the cap: one
// of the cap or more counts as the cap.
#[derive(Drop)]
pub(crate) struct View<'a, 't, A: Arena> {
    pub(crate) arena: &'a A,
    pub(crate) table: &'t [u32],
    pub(crate) place: usize,
    pub(crate) cap: u32,
    ghost here: { place < (A.Arena.game arena.now).size },
    ghost sound: { SoundAt (A.Arena.game arena.now) place },
    ghost fits: { (A.Arena.game arena.now).size ≤ length table.now },
}

impl<'a, 't, A: Arena> View<'a, 't, A> {
    // Looks at each move of the place, and joins what it sees. A move is asked for by its position, and the looks are
    // counted where they are made, as the rules of the project want, so the loop has both numbers.
    fn look_round<W: Wish>(&self) -> Looked
        ensures entry { Picked W.order 0 (seen_row (A.Arena.game self.now.arena.now).rules self.now.cap self.now.table.now self.now.place) result.entry }
        ensures looks { result.looks ≡ degree (A.Arena.game self.now.arena.now).rules self.now.place }
    {
        let mut pick = Pick::<W>::EMPTY;
        let mut looks: u64 = 0;
        let count = self.arena.move_count(self.place).unwrap_or(0);
        for position in 0..count {
            let Some(to) = self.arena.move_at(self.place, position) else {
                unreachable()
            };
            let mark = self.table[to].min(self.cap);
            pick = pick.join(Pick::count_as(mark, position as u64));
            looks += 1;
        }
        Looked {
            entry: pick.entry,
            looks,
        }
    }

    // The pick of the player among the moves of the place. The player is data of the arena, so one switch to a wish is left.
    fn pick_move(&self, player: Player) -> Looked
        ensures entry { Picked (order_of player) 0 (seen_row (A.Arena.game self.now.arena.now).rules self.now.cap self.now.table.now self.now.place) result.entry }
        ensures looks { result.looks ≡ degree (A.Arena.game self.now.arena.now).rules self.now.place }
    {
        match player {
            Player::Pursuer => self.look_round::<Least>(),
            Player::Runner => self.look_round::<Greatest>(),
        }
    }

    // What the place has in a round of the cap's number, or in a finish.
    pub(crate) fn scan(&self) -> Scan
        ensures word { Best (A.Arena.game self.now.arena.now).rules (λ q. min (marks_of self.now.table.now q) self.now.cap) self.now.place result.word }
        ensures ready { Decides result.ready (Ready (A.Arena.game self.now.arena.now).rules self.now.cap self.now.table.now self.now.place) }
        ensures looks { result.looks ≡ degree (A.Arena.game self.now.arena.now).rules self.now.place }
    {
        let player = self.arena.owner(self.place).unwrap_or(Player::Runner);
        let seen = self.pick_move(player);
        match seen.entry {
            None => Scan {
                word: NONE,
                ready: matches!(player, Player::Runner),
                looks: seen.looks,
            },
            Some(entry) => Scan {
                word: entry.position as u32,
                ready: entry.mark < self.cap,
                looks: seen.looks,
            },
        }
    }
}
