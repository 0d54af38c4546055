ghost use Rattle.arena.specs.Unfit.{told as told_unfit};
ghost use Rattle.checker.specs.Verdicts.{told as told_table};
ghost use Rattle.pursuit.specs.Refused.{rule_told, told};
ghost use Rattle.pursuit.specs.declared.refusal.BoardRefusal.TheVariants.{Traps};
ghost use Rattle.std.specs.Option.{option_map};
ghost use Rattle.std.specs.Prelude.{◌≡◌, ℕ, List};

use arena::unfit::Unfit;
use checker::CheckRefusal;
use gated::refusal::TrapRefusal;

// What can be wrong with a table: each has a number.
pub trait Numbered: Copy {
    // The number, and the values that go with it.
    ghost told: { Self → ℕ × List ℕ };

    // The refusal's number.
    fn number(self) -> u8
        ensures { result ≡ (told self).0 };
}

impl Numbered for Unfit {
    ghost told = { told_unfit };

    fn number(self) -> u8 {
        Unfit::number(self)
    }
}

impl Numbered for CheckRefusal {
    ghost told = { told_table };

    fn number(self) -> u8 {
        CheckRefusal::number(self)
    }
}

// Why a board is not solved, or a table of it not accepted; W is what can be wrong with the table.
#[derive(Clone, Copy, PartialEq, Eq, Debug)]
pub enum BoardRefusal<W> {
    // The traps are not laid.
    Traps(TrapRefusal),
    // The table is refused.
    Table(W),
}

// Why a table of a board is not accepted.
pub type BoardFault = BoardRefusal<CheckRefusal>;

impl<W: Numbered> BoardRefusal<W> {
    // The refusal's number, plain as that of every other refusal; 0 for want of memory, which has none.
    pub fn number(self) -> u8
        ensures { result ≡ (told W.told self).0 }
    {
        match self {
            BoardRefusal::Traps(why) => why.number(),
            BoardRefusal::Table(why) => why.number(),
        }
    }

    // The number of the rule that is broken; want of memory breaks none.
    pub fn rule_number(self) -> Option<u8>
        ensures { result ≡ option_map (λ t. t.0) (rule_told W.told self) }
    {
        match self {
            BoardRefusal::Traps(why) => why.rule_number(),
            BoardRefusal::Table(why) => Some(why.number()),
        }
    }
}

// Traps that cannot be laid refuse the board.
impl<W> From<TrapRefusal> for BoardRefusal<W> {
    ghost from_gives = { λ why refusal. refusal ≡ Traps why };

    fn from(why: TrapRefusal) -> BoardRefusal<W> {
        Self::Traps(why)
    }
}
