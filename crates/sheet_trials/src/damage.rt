use crate::answer::Row;
use crate::dice::Dice;
use crate::plan::{Entry, lawful_plan, text_of};
use std::alloc::{AllocError, Global};

// The bytes that matter to a reader, and a few that no sheet has.
pub const BYTES: [u8; 19] = [
    b'0', b'1', b'2', b'6', b'9', b' ', b'\n', b'b', b'd', b'g', b't', b'r', b'e', b'n', b'/',
    b':', b'\r', 0, 255,
];

// Numbers at the edges, and such as no line can have.
const NUMBERS: [u32; 14] = [0, 1, 2, 6, 16, 63, 64, 65, 99, 100, 256, 320, 999, 1000];

// What can be done to a sheet at one place.
#[derive(Clone, Copy)]
pub enum Damage {
    Replace(u8),
    Insert(u8),
    Remove,
    Double,
    Cut,
}

// The bytes after the first.
fn rest_of(bytes: &[u8]) -> &[u8] {
    bytes.split_first().map_or(bytes, |(_, rest)| rest)
}

// The three parts as one sheet.
fn joint(heap: Global, front: &[u8], middle: &[u8], back: &[u8]) -> Result<Vec<u8>, AllocError> {
    let mut sheet = Vec::from_slice(heap, front)?;
    sheet.extend_from_slice(middle)?;
    sheet.extend_from_slice(back)?;
    Ok(sheet)
}

// The sheet with this damage at the offset, or at its end where the offset is past it.
pub fn damaged_at(
    heap: Global,
    sheet: &[u8],
    at: usize,
    damage: Damage,
) -> Result<Vec<u8>, AllocError> {
    let (front, back) = sheet.split_at(at.min(sheet.len()));
    match (damage, back) {
        (Damage::Replace(byte), _) => joint(heap, front, &[byte], rest_of(back)),
        (Damage::Insert(byte), _) => joint(heap, front, &[byte], back),
        (Damage::Remove, _) => joint(heap, front, &[], rest_of(back)),
        (Damage::Double, [byte, ..]) => joint(heap, front, &[*byte], back),
        (Damage::Double, []) => joint(heap, front, &[], back),
        (Damage::Cut, _) => joint(heap, front, &[], &[]),
    }
}

fn some_damage(dice: &mut Dice) -> Damage {
    match dice.below(12) {
        0..=3 => Damage::Replace(dice.one_of(&BYTES)),
        4..=6 => Damage::Insert(dice.one_of(&BYTES)),
        7..=8 => Damage::Remove,
        9..=10 => Damage::Double,
        _ => Damage::Cut,
    }
}

// The gate with an end or its pattern changed, with equal ends, or turned.
fn other_row(dice: &mut Dice, row: Row) -> Row {
    match dice.below(7) {
        0 => Row {
            from: dice.one_of(&NUMBERS),
            ..row
        },
        1 => Row {
            to: dice.one_of(&NUMBERS),
            ..row
        },
        2 => Row { bits: 0, ..row },
        3 => Row {
            to: row.from,
            ..row
        },
        4 => Row {
            to: row.from,
            bits: 0,
            ..row
        },
        5 => Row {
            steps: dice.below(35),
            ..row
        },
        _ => Row {
            from: row.to,
            to: row.from,
            ..row
        },
    }
}

// The line with something changed.
fn other_entry(dice: &mut Dice, entry: Entry) -> Entry {
    match entry {
        Entry::Board { .. } => Entry::Board {
            spots: dice.one_of(&NUMBERS),
        },
        Entry::Gate(row) => Entry::Gate(other_row(dice, row)),
        Entry::Trap { .. } => Entry::Trap {
            spot: dice.one_of(&NUMBERS),
        },
        Entry::End => Entry::End,
    }
}

// Removes a line, swaps it with another, changes it, or puts it or a changed one in once more.
fn damage_plan(dice: &mut Dice, plan: &mut Vec<Entry>) -> Result<(), AllocError> {
    let i = dice.index(plan.len());
    let j = dice.index(plan.len());
    if i >= plan.len() || j >= plan.len() {
        return Ok(());
    }
    match dice.below(8) {
        0 => {
            let _ = plan.remove(i);
        }
        1 => plan.swap(i, j),
        2..=3 => {
            let entry = plan[i];
            plan.insert(j, entry)?;
        }
        4..=5 => {
            let entry = other_entry(dice, plan[i]);
            plan.insert(j, entry)?;
        }
        _ => {
            let entry = other_entry(dice, plan[i]);
            plan[i] = entry;
        }
    }
    Ok(())
}

// A lawful sheet with up to two damages to its lines, and then up to two to its bytes.
pub fn damaged_sheet(heap: Global, dice: &mut Dice) -> Result<Vec<u8>, AllocError> {
    let mut plan = lawful_plan(heap, dice)?;
    for _ in 0..dice.below(3) {
        damage_plan(dice, &mut plan)?;
    }
    let text = text_of(heap, plan.as_slice())?;
    let mut sheet = Vec::from_slice(heap, text.as_bytes())?;
    for _ in 0..dice.below(3) {
        let at = dice.index(sheet.len().saturating_add(1));
        let damage = some_damage(dice);
        sheet = damaged_at(heap, sheet.as_slice(), at, damage)?;
    }
    Ok(sheet)
}
