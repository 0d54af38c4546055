ghost use Rattle.std.specs.Prelude.{List, ℕ, MatchOption, MatchResult};
ghost use Rattle.lines.specs.Grammar.{Marked, kinds};
ghost use Rattle.lines.specs.Lines.{Answers, Reads};
ghost use Rattle.lines.specs.Reading.{RestOf, ReadsAfter, StopsAt};

use crate::field::{Number, Pattern};
use crate::line::{Line, Mark, Read};
use crate::part::Part;
use crate::refusal::{NoLine, Refusal};
use crate::rest::{Found, Rest};

// The mark at the front, and what follows it.
fn mark_of(bytes: &[u8]) -> Option<(Mark, &[u8])>
    ensures { MatchOption result ((m : Mark) (after : List ℕ) → Marked m bytes.now after → ⊥) (λ p. Marked p.0 bytes.now p.1.now) }
{
    match bytes {
        [b'b', b'd', after @ ..] => Some((Mark::Board, after)),
        [b'g', b't', after @ ..] => Some((Mark::Gate, after)),
        [b't', b'r', after @ ..] => Some((Mark::Trap, after)),
        [b'e', b'n', after @ ..] => Some((Mark::End, after)),
        _ => None,
    }
}

impl<'a> Rest<'a> {
    // The fields of a gate and the line's end.
    fn read_gate(self) -> Result<Found<'a>, NoLine>
        ensures { MatchResult result (λ found. ReadsAfter Mark.Gate self.entry found) (λ why. StopsAt (RestOf (kinds Mark.Gate)) self.entry why) }
    {
        let u = self.take_field::<Number>()?;
        let v = u.rest.take_field::<Number>()?;
        let pattern = v.rest.take_field::<Pattern>()?;
        pattern.rest.end_line(Line::Gate {
            u: u.field,
            v: v.field,
            pattern: pattern.field,
        })
    }

    // The line of a known mark, of which this is what follows the mark. A closure in place of the mark would be no plainer: it
    // would hide which mark the answer is for.
    fn read_after(self, mark: Mark) -> Result<Found<'a>, NoLine>
        ensures { MatchResult result (λ found. ReadsAfter mark self.entry found) (λ why. StopsAt (RestOf (kinds mark)) self.entry why) }
    {
        match mark {
            Mark::Board => {
                let n = self.take_field::<Number>()?;
                n.rest.end_line(Line::Board { n: n.field })
            }
            Mark::Gate => self.read_gate(),
            Mark::Trap => {
                let v = self.take_field::<Number>()?;
                v.rest.end_line(Line::Trap { v: v.field })
            }
            Mark::End => self.end_line(Line::End),
        }
    }

    // The line at the front.
    fn front_line(self) -> Result<Read<'a>, Refusal>
        ensures { Answers self.entry.at self.entry.bytes.now result }
    {
        let Some((mark, after)) = mark_of(self.bytes) else {
            return Err(Refusal::NoMark { offset: self.at });
        };
        let after = Rest {
            bytes: after,
            at: self.at + 2,
        };
        let Found { line, next } = after.read_after(mark)?;
        let (bytes, _) = self.bytes.split_at(next - self.at);
        let offset = self.at;
        Ok(Read {
            text: Part { bytes, offset },
            line,
            next,
        })
    }
}

// The line that begins at the offset `at` of the sheet, or at the sheet's end where `at` is past it.
pub fn read_line<'a>(sheet: &'a [u8], at: usize) -> Result<Read<'a>, Refusal>
    ensures { Reads sheet.now at result }
{
    let start = at.min(sheet.len());
    let (_, bytes) = sheet.split_at(start);
    Rest { bytes, at: start }.front_line()
}
