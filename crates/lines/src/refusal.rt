ghost use Rattle.std.specs.Prelude.{◌≡◌, Some};
ghost use Rattle.lines.specs.Refusals.{printed, told};
ghost use Rattle.lines.specs.declared.refusal.Refusal.TheVariants.{NoLine as no_line};

use std::fmt;

// What a rule is about.
#[derive(Clone, Copy, PartialEq, Eq, Debug)]
pub enum Layer {
    Line,
    Board,
    Pattern,
}

// A rule's number, the offset in the sheet where it is broken, and what the rule is about. The number is no enum, since it
// is what is printed.
#[derive(Clone, Copy, PartialEq, Eq, Debug)]
pub struct Told {
    pub number: u8,
    pub offset: usize,
    pub layer: Layer,
}

impl fmt::Display for Told {
    ghost output = { λ t. Some (printed t) };

    fn fmt<W: fmt::Write>(&self, f: &mut fmt::Formatter<W>) -> fmt::Result {
        let number = self.number;
        let offset = self.offset;
        write!(f, "refused {number} {offset}")
    }
}

// Why no line is read.
#[derive(Clone, Copy, PartialEq, Eq, Debug)]
pub enum Refusal {
    // There are fewer than two bytes, or they are no mark.
    NoMark { offset: usize },
    // No line of the mark goes on so.
    NoLine { offset: usize },
}

// No line of the mark goes on at the offset.
#[derive(Clone, Copy)]
pub(crate) struct NoLine {
    pub offset: usize,
}

impl From<NoLine> for Refusal {
    ghost from_gives = { λ why r. r ≡ no_line why.offset };

    fn from(why: NoLine) -> Refusal {
        Refusal::NoLine { offset: why.offset }
    }
}

impl Refusal {
    // What the refusal tells.
    pub fn told(self) -> Told
        ensures { result ≡ told self }
    {
        let (number, offset) = match self {
            Refusal::NoMark { offset } => (4, offset),
            Refusal::NoLine { offset } => (5, offset),
        };
        Told {
            number,
            offset,
            layer: Layer::Line,
        }
    }
}
