ghost use Rattle.std.specs.Prelude.{◌≡◌, ◌*◌, ◌<◌, ◌≤◌, length, MatchResult};
ghost use Rattle.board.specs.Boards.{spots_of};
ghost use Rattle.opening.specs.Openings.{Starts};
ghost use Rattle.opening.specs.Refused.{SameSize};
ghost use Rattle.opening.specs.declared.refusal.OpeningRefusal.TheVariants.{Table};

use crate::refusal::OpeningRefusal;
use crate::start::Opening;
use board::Board;
use marks::row::runner_pick_and_tally;

// The marks where a game starts, a row for each pursuer spot.
#[derive(Drop)]
pub(crate) struct Rows<'a> {
    marks: &'a [u32],
    spots: usize,
    ghost some: { 0 < spots },
    ghost few: { spots ≤ 64 },
    ghost long: { spots * spots ≤ length marks.now },
}

impl<'a> Rows<'a> {
    // The rows of a board in the words of a table, if it has the board's size.
    pub(crate) fn of(board: &Board, words: &'a [u32]) -> Result<Rows<'a>, OpeningRefusal>
        ensures { MatchResult result (λ rows. SameSize board.now words.now × (rows.marks.now ≡ words.now) × (rows.spots ≡ spots_of board.now)) (λ why. (why ≡ Table) × (SameSize board.now words.now → ⊥)) }
    {
        if words.len() != 2 * board.places() as usize {
            return Err(OpeningRefusal::Table);
        }
        Ok(Rows {
            marks: words,
            spots: usize::from(board.spots()),
        })
    }

    // How many rows there are.
    pub(crate) fn spots(&self) -> usize
        ensures { result ≡ self.now.spots }
    {
        self.spots
    }

    // The runner's best reply to a pursuer start, in one pass over its row.
    pub(crate) fn start_at(&self, pursuer: usize) -> Opening
        requires { pursuer < self.now.spots }
        ensures { Starts self.now.spots self.now.marks.now pursuer result }
    {
        let from = pursuer * self.spots;
        let both = runner_pick_and_tally(&self.marks[from..from + self.spots]);
        let Some(reply) = both.first.entry else {
            unreachable()
        };
        Opening {
            pursuer,
            runner: reply.position as usize,
            mark: reply.mark,
            tally: both.second,
        }
    }
}
