use crate::answer::{Answer, Row, Stop, Written};
use crate::reader::second_answer;
use board::Gate;
use sheet::read::read_sheet;
use sheet::refusal::Refusal;
use sheet::sheet::Sheet;
use std::alloc::{AllocError, Global};
use std::process::Abort;
use std::test::Fail;

impl<'a> From<&'a Gate> for Row {
    // Its bits are the steps at which the gate says that it is open.
    fn from(gate: &'a Gate) -> Row {
        let steps = u32::from(gate.pattern.steps());
        let bits = (0..steps)
            .filter(|step| gate.pattern.is_open(*step))
            .fold(0u32, |bits, step| bits | 1u32.wrapping_shl(step));
        Row {
            from: u32::from(gate.from),
            to: u32::from(gate.to),
            bits,
            steps,
        }
    }
}

impl From<Refusal> for Stop {
    fn from(why: Refusal) -> Stop {
        why.told().map_or(Stop::NoMemory, Stop::Broken)
    }
}

// What the sheet that was read writes.
fn written(heap: Global, sheet: &Sheet) -> Result<Written, AllocError> {
    let gates = sheet.board.gates();
    Ok(Written {
        spots: u32::from(sheet.board.spots()),
        period: sheet.board.period(),
        gates: gates.iter().map(|gate| Row::from(gate)).collect(heap)?,
        traps: sheet
            .traps
            .iter()
            .map(|spot| u32::from(*spot))
            .collect(heap)?,
    })
}

// What `sheet` says of a sheet.
fn first_answer(heap: Global, sheet: &[u8]) -> Answer {
    let sheet = read_sheet(heap, sheet)?;
    Ok(written(heap, &sheet)?)
}

// What both readers say of a sheet; a failure where they differ.
pub fn agreed(rt: &impl Abort, heap: Global, sheet: &[u8]) -> Result<Answer, Fail> {
    let answer = first_answer(heap, sheet);
    assert_eq!(rt; &answer, &second_answer(heap, sheet), "{sheet:?}");
    Ok(answer)
}
