ghost use Rattle.report.specs.Failures.{failure_of, numbers, printed};
ghost use Rattle.report.specs.declared.failure.Failure.TheVariants.{NoMemory};
ghost use Rattle.std.specs.Prelude.{◌≡◌};

use lines::refusal::Told;
use sheet::refusal::Refusal;
use std::alloc::AllocError;
use std::fmt;

// What is printed of a refusal: its number and the byte offset. A sheet that is too large breaks no rule of sheets, so
// there is no layer.
#[derive(Clone, Copy, PartialEq, Eq, Debug)]
pub struct Printed {
    pub number: u8,
    pub offset: usize,
}

impl From<Told> for Printed {
    ghost from_gives = { λ told refused. refused ≡ numbers told };

    fn from(told: Told) -> Printed {
        Printed {
            number: told.number,
            offset: told.offset,
        }
    }
}

impl fmt::Display for Printed {
    fn fmt<W: fmt::Write>(&self, f: &mut fmt::Formatter<W>) -> fmt::Result {
        let (number, offset) = (self.number, self.offset);
        writeln!(f, "refused {number} {offset}")
    }
}

// Why a sheet is not solved.
#[derive(Clone, Copy)]
pub enum Failure {
    // The sheet or its board is larger than the program takes.
    TooLarge,
    // The sheet is refused.
    Refused(Refusal),
    // There is no memory.
    NoMemory,
}

impl Failure {
    // What is printed, of a failure that is a refusal of the sheet.
    pub fn printed(self) -> Option<Printed>
        ensures { result ≡ printed self }
    {
        match self {
            Failure::TooLarge => Some(Printed {
                number: 22,
                offset: 0,
            }),
            Failure::Refused(why) => why.told().map(Printed::from),
            Failure::NoMemory => None,
        }
    }
}

impl From<Refusal> for Failure {
    ghost from_gives = { λ why failure. failure ≡ failure_of why };

    fn from(why: Refusal) -> Failure {
        match why {
            Refusal::NoMemory => Failure::NoMemory,
            _ => Failure::Refused(why),
        }
    }
}

impl From<AllocError> for Failure {
    ghost from_gives = { λ _ failure. failure ≡ NoMemory };

    fn from(_error: AllocError) -> Failure {
        Self::NoMemory
    }
}
