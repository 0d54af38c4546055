ghost use Rattle.std.specs.Prelude.{◌≡◌, Some};
ghost use Rattle.sheet.specs.Refusals.{board_rule, told};
ghost use Rattle.sheet.specs.declared.refusal.Refusal.TheVariants.{Line, NoMemory};

use lines::refusal::{Layer, Refusal as LineRefusal, Told};
use std::alloc::AllocFailed;

// Why a sheet is not read.
#[derive(Clone, Copy, PartialEq, Eq, Debug)]
pub enum Refusal {
    // No line is there.
    Line(LineRefusal),
    // The first line is no board's, or a later one is; bytes are wanting, or follow the end.
    Misplaced { offset: usize },
    // A number is outside its range.
    OutOfRange { offset: usize },
    // A pattern has no open step.
    NeverOpen { offset: usize },
    // A gate's ends are equal, or its pair or a trap is there already.
    Repeated { offset: usize },
    // There are 256 gates already.
    TooManyGates { offset: usize },
    // The board has more than 1048576 places.
    TooLarge { offset: usize },
    // There is no memory for what the sheet writes.
    NoMemory,
}

impl From<LineRefusal> for Refusal {
    ghost from_gives = { λ why r. r ≡ Line why };

    fn from(why: LineRefusal) -> Refusal {
        Self::Line(why)
    }
}

impl<T: Drop> From<AllocFailed<T>> for Refusal {
    ghost from_gives = { λ _ r. r ≡ NoMemory };

    fn from(_why: AllocFailed<T>) -> Refusal {
        Self::NoMemory
    }
}

// A rule of boards that is broken.
fn board_rule(number: u8, offset: usize) -> Option<Told>
    ensures { result ≡ Some (board_rule number offset) }
{
    Some(Told {
        number,
        offset,
        layer: Layer::Board,
    })
}

impl Refusal {
    // What the refusal tells; want of memory tells nothing of the sheet.
    pub fn told(self) -> Option<Told>
        ensures { result ≡ told self }
    {
        match self {
            Refusal::Line(why) => Some(why.told()),
            Refusal::Misplaced { offset } => board_rule(6, offset),
            Refusal::OutOfRange { offset } => board_rule(7, offset),
            Refusal::NeverOpen { offset } => Some(Told {
                number: 3,
                offset,
                layer: Layer::Pattern,
            }),
            Refusal::Repeated { offset } => board_rule(8, offset),
            Refusal::TooManyGates { offset } => board_rule(9, offset),
            Refusal::TooLarge { offset } => board_rule(10, offset),
            Refusal::NoMemory => None,
        }
    }
}
