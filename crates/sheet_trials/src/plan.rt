use crate::answer::{Row, Written, pair};
use crate::dice::Dice;
use std::alloc::{AllocError, Global};
use std::fmt;

// A line of a sheet that is not written yet.
#[derive(Clone, Copy)]
pub enum Entry {
    Board { spots: u32 },
    Gate(Row),
    Trap { spot: u32 },
    End,
}

impl Entry {
    // The number of spots, where it is the board's line.
    fn board(self) -> Option<u32> {
        match self {
            Entry::Board { spots } => Some(spots),
            _ => None,
        }
    }

    // The gate, where it is a gate's line.
    fn gate(self) -> Option<Row> {
        match self {
            Entry::Gate(row) => Some(row),
            _ => None,
        }
    }

    // The spot, where it is a trap's line.
    fn trap(self) -> Option<u32> {
        match self {
            Entry::Trap { spot } => Some(spot),
            _ => None,
        }
    }
}

impl fmt::Display for Row {
    // The ends and the pattern, as a line has them.
    fn fmt<W: fmt::Write>(&self, f: &mut fmt::Formatter<W>) -> fmt::Result {
        write!(f, "{} {} ", self.from, self.to)?;
        for step in 0..self.steps {
            write!(f, "{}", self.bits.wrapping_shr(step) % 2)?;
        }
        Ok(())
    }
}

impl fmt::Display for Entry {
    fn fmt<W: fmt::Write>(&self, f: &mut fmt::Formatter<W>) -> fmt::Result {
        match self {
            Entry::Board { spots } => writeln!(f, "bd {spots}"),
            Entry::Gate(row) => writeln!(f, "gt {row}"),
            Entry::Trap { spot } => writeln!(f, "tr {spot}"),
            Entry::End => writeln!(f, "en"),
        }
    }
}

// With such a clock a board of 64 spots has 1048576 places, and no board has more.
const LONGEST: u32 = 128;

// What the patterns' lengths of a sheet divide.
const CLOCKS: [u32; 10] = [1, 2, 7, 12, 30, 31, 32, 60, 96, 120];

// Whether two lines cannot both stand in a sheet.
fn clash(one: Entry, other: Entry) -> bool {
    match (one, other) {
        (Entry::Gate(a), Entry::Gate(b)) => pair(a.from, a.to) == pair(b.from, b.to),
        (Entry::Trap { spot: a }, Entry::Trap { spot: b }) => a == b,
        _ => false,
    }
}

// Whether the line can follow these.
fn follows(entry: Entry, plan: &[Entry]) -> bool {
    !entry.gate().is_some_and(|row| row.from == row.to)
        && !plan.iter().any(|other| clash(entry, *other))
}

// A gate with some open step, whose ends may be equal.
pub fn some_gate(dice: &mut Dice, spots: u32, steps: u32) -> Row {
    let mask = u32::MAX.wrapping_shr(32u32.saturating_sub(steps));
    let bits = dice.below(u32::MAX) & mask;
    let from = dice.below(spots);
    let to = dice.below(spots);
    let bits = if bits == 0 {
        1u32.wrapping_shl(dice.below(steps))
    } else {
        bits
    };
    Row {
        from,
        to,
        bits,
        steps,
    }
}

// A trap, or a gate whose length divides the clock.
fn some_entry(dice: &mut Dice, spots: u32, clock: u32) -> Entry {
    if dice.below(4) == 0 {
        return Entry::Trap {
            spot: dice.below(spots),
        };
    }
    let steps = dice.below(32).saturating_add(1);
    match clock % steps {
        0 => Entry::Gate(some_gate(dice, spots, steps)),
        _ => Entry::Gate(some_gate(dice, spots, 1)),
    }
}

// The lines of a lawful sheet.
pub fn lawful_plan(heap: Global, dice: &mut Dice) -> Result<Vec<Entry>, AllocError> {
    let most = dice.one_of(&[2, 6, 16, 64]);
    let spots = dice.below(most).saturating_add(1);
    let clock = dice.one_of(&CLOCKS);
    let mut plan = Vec::new(heap);
    plan.push(Entry::Board { spots })?;
    for _ in 0..dice.below(20) {
        let entry = some_entry(dice, spots, clock);
        if follows(entry, plan.as_slice()) {
            plan.push(entry)?;
        }
    }
    plan.push(Entry::End)?;
    Ok(plan)
}

// Whether a clock fits all the gates.
fn fits(plan: &[Entry], period: u32) -> bool {
    plan.iter()
        .filter_map(|entry| entry.gate())
        .all(|row| period.checked_rem(row.steps) == Some(0))
}

// The first clock that fits all the gates.
fn period_of(plan: &[Entry]) -> u32 {
    (1..LONGEST)
        .find(|period| fits(plan, *period))
        .unwrap_or(LONGEST)
}

// What the lines of a lawful sheet write.
pub fn written_by(heap: Global, plan: &[Entry]) -> Result<Written, AllocError> {
    Ok(Written {
        spots: plan
            .iter()
            .filter_map(|entry| entry.board())
            .last()
            .unwrap_or(0),
        period: period_of(plan),
        gates: plan.iter().filter_map(|entry| entry.gate()).collect(heap)?,
        traps: plan.iter().filter_map(|entry| entry.trap()).collect(heap)?,
    })
}

// The sheet of these lines.
pub fn text_of(heap: Global, plan: &[Entry]) -> Result<String, AllocError> {
    let mut text = String::new(heap);
    for entry in plan {
        write!(text, "{entry}")?;
    }
    Ok(text)
}
