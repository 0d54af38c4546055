ghost use Rattle.std.specs.Prelude.{◌≤◌, length, Some, MatchResult};
ghost use Rattle.sheet.specs.Parts.{said, Begun, Next};
ghost use Rattle.sheet.specs.Readings.{Explains, Reads};
ghost use Rattle.sheet.specs.Refusals.{told};

use crate::reading::{InForm, Reading};
use crate::refusal::Refusal;
use crate::sheet::Sheet;
use board::Draft;
use lines::line::{Line, Read, read_line};
use std::alloc::Global;

// The line that begins at the offset `at`.
fn line_at<'a>(sheet: &'a [u8], at: usize) -> Result<Read<'a>, Refusal>
    requires { at ≤ length sheet.now }
    ensures { Next sheet.now at result }
{
    if at == sheet.len() {
        return Err(Refusal::Misplaced { offset: at });
    }
    Ok(read_line(sheet, at)?)
}

// The board's line, and the offset of the next.
fn begin(heap: Global, sheet: &[u8]) -> Result<(Reading, usize), Refusal>
    ensures { MatchResult result (λ p. Begun sheet.now p.1 (Some (said p.0))) (λ why. Explains sheet.now (told why)) }
{
    let read = line_at(sheet, 0)?;
    let Line::Board { n } = read.line else {
        return Err(Refusal::Misplaced { offset: 0 });
    };
    let Ok(spots) = u8::try_from(n.number()) else {
        return Err(Refusal::OutOfRange { offset: n.offset });
    };
    let Ok(draft) = Draft::new(heap, spots) else {
        return Err(Refusal::OutOfRange { offset: n.offset });
    };
    let reading = Reading {
        draft,
        traps: Vec::new(heap),
    };
    Ok((reading, read.next))
}

// The board and the traps that a sheet writes, or why it writes none.
pub fn read_sheet(heap: Global, sheet: &[u8]) -> Result<Sheet, Refusal>
    ensures { Reads sheet.now result }
{
    let (mut reading, mut at) = begin(heap, sheet)?;
    loop {
        let read = line_at(sheet, at)?;
        if let Line::End = read.line {
            return reading.close(read.next, sheet.len());
        }
        reading.take(InForm { read })?;
        at = read.next;
    }
}
