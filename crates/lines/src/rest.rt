ghost use Rattle.std.specs.Prelude.{◌+◌, ◌^◌, ◌<◌, length};

use crate::field::Field;
use crate::line::Line;
use crate::part::Part;
use crate::refusal::NoLine;

// The fewest bytes that a field has.
const FEWEST: usize = 1;

// What is left of a sheet from the offset `at` on.
#[derive(Clone, Copy)]
pub(crate) struct Rest<'a> {
    pub bytes: &'a [u8],
    pub at: usize,
    ghost fits: { at + length bytes.now < 2 ^ 64 },
}

// A field that was read, and what follows it.
#[derive(Clone, Copy)]
pub(crate) struct Taken<'a> {
    pub field: Part<'a>,
    pub rest: Rest<'a>,
}

// What a line says, and the offset of the next line.
#[derive(Clone, Copy)]
pub(crate) struct Found<'a> {
    pub line: Line<'a>,
    pub next: usize,
}

impl<'a> Rest<'a> {
    ghost use Rattle.std.specs.Prelude.{◌≡◌, List, [], ◌∷◌, MatchResult};
    ghost use Rattle.lines.specs.Grammar.{Kind};
    ghost use Rattle.lines.specs.Reading.{RestOf, Took, StopsAt, Completes};

    // One space and a field at the front.
    pub(crate) fn take_field<F: Field>(self) -> Result<Taken<'a>, NoLine>
        ensures { MatchResult result (λ t. Took F.kind self.entry t) (λ why. (ks : List Kind) → StopsAt (RestOf (F.kind ∷ ks)) self.entry why) }
    {
        let [b' ', body @ ..] = self.bytes else {
            return Err(NoLine { offset: self.at });
        };
        let offset = self.at + 1;
        let n = F::field_len(body);
        if n < FEWEST {
            return Err(NoLine { offset });
        }
        let (bytes, after) = body.split_at(n);
        Ok(Taken {
            field: Part { bytes, offset },
            rest: Rest {
                bytes: after,
                at: offset + n,
            },
        })
    }

    // The end of a line that says this.
    pub(crate) fn end_line(self, line: Line<'a>) -> Result<Found<'a>, NoLine>
        ensures { Completes line.entry self.entry [] [] result }
    {
        match self.bytes {
            [b'\n', ..] => Ok(Found {
                line,
                next: self.at + 1,
            }),
            _ => Err(NoLine { offset: self.at }),
        }
    }
}
