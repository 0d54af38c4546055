use crate::agree::agreed;
use crate::damage::{BYTES, Damage, damaged_at, damaged_sheet};
use crate::dice::Dice;
use crate::limits::{crowded_plan, slow_plan};
use crate::plan::{Entry, lawful_plan, text_of, written_by};
use crate::tally::Tally;
use std::alloc::Global;
use std::process::Abort;
use std::test::Fail;

const LAWFUL: u64 = 2000;

const DAMAGED: u64 = 20000;

const CROWDS: u64 = 200;

const CLOCKS: u64 = 200;

const MOST_SPOTS: u32 = 64;

// Sheets that both readers are to say the same of, and how often they were read or refused.
#[derive(Drop)]
struct Trial<'a, R> {
    rt: &'a R,
    heap: Global,
    tally: Tally,
}

impl<'a, R: Abort> Trial<'a, R> {
    // No sheet yet.
    fn new(rt: &'a R, heap: Global) -> Trial<'a, R> {
        let tally = Tally::new(heap);
        Trial { rt, heap, tally }
    }

    // One sheet.
    fn sheet(&mut self, sheet: &[u8]) -> Result<(), Fail> {
        self.tally.count(&agreed(self.rt, self.heap, sheet)?)
    }

    // The sheet of these lines.
    fn plan(&mut self, plan: &[Entry]) -> Result<(), Fail> {
        let text = text_of(self.heap, plan)?;
        self.sheet(text.as_bytes())
    }

    // A sheet with damage at the offset.
    fn damage(&mut self, sheet: &[u8], at: usize, damage: Damage) -> Result<(), Fail> {
        let damaged = damaged_at(self.heap, sheet, at, damage)?;
        self.sheet(damaged.as_slice())
    }

    // Boards of every size with the same long clock.
    fn sizes(&mut self, seed: u64) -> Result<(), Fail> {
        for spots in 1..=MOST_SPOTS {
            let plan = slow_plan(self.heap, &mut Dice::new(seed), spots)?;
            self.plan(plan.as_slice())?;
        }
        Ok(())
    }

    // Every damage at one place.
    fn place(&mut self, sheet: &[u8], at: usize) -> Result<(), Fail> {
        for damage in [Damage::Remove, Damage::Double, Damage::Cut] {
            self.damage(sheet, at, damage)?;
        }
        for byte in BYTES {
            self.damage(sheet, at, Damage::Replace(byte))?;
            self.damage(sheet, at, Damage::Insert(byte))?;
        }
        Ok(())
    }

    // Every damage at every place.
    fn places(&mut self, sheet: &[u8]) -> Result<(), Fail> {
        for at in 0..=sheet.len() {
            self.place(sheet, at)?;
        }
        Ok(())
    }
}

#[test]
fn lawful_sheets_are_read(rt: HostRuntime) -> Result<(), Fail> {
    let heap = rt.alloc();
    for seed in 0..LAWFUL {
        let mut dice = Dice::new(seed);
        let plan = lawful_plan(heap, &mut dice)?;
        let text = text_of(heap, plan.as_slice())?;
        let wanted = Ok(written_by(heap, plan.as_slice())?);
        assert_eq!(rt; agreed(&rt, heap, text.as_bytes())?, wanted, "{}", text);
    }
    Ok(())
}

#[test]
fn damaged_sheets_are_judged_alike(rt: HostRuntime) -> Result<(), Fail> {
    let heap = rt.alloc();
    let mut trial = Trial::new(&rt, heap);
    for seed in 0..DAMAGED {
        let sheet = damaged_sheet(heap, &mut Dice::new(seed))?;
        trial.sheet(sheet.as_slice())?;
    }
    trial.tally.has_read(&rt, 100);
    trial.tally.has_refused(&rt, &[3, 4, 5, 6, 7, 8], 100);
    Ok(())
}

#[test]
fn every_byte_is_judged_alike(rt: HostRuntime) -> Result<(), Fail> {
    let mut trial = Trial::new(&rt, rt.alloc());
    trial.places(b"")?;
    trial.places(b"bd 1\nen\n")?;
    trial.places(b"bd 64\ntr 63\ntr 6\nen\n")?;
    trial.places(b"bd 2\ngt 0 1 01\ntr 1\nen\n")?;
    trial.places(b"bd 12\ngt 1 11 1\ntr 10\ngt 11 2 010\ntr 1\ngt 2 1 10\nen\n")?;
    trial.places(
        b"bd 21\ngt 0 20 00000000000000000000000000000001\ngt 20 2 1000000000000000000000000000000\nen\n",
    )?;
    trial.tally.has_read(&rt, 10);
    trial.tally.has_refused(&rt, &[3, 4, 5, 6, 7, 8], 10);
    Ok(())
}

#[test]
fn crowds_of_gates_are_judged_alike(rt: HostRuntime) -> Result<(), Fail> {
    let heap = rt.alloc();
    let mut trial = Trial::new(&rt, heap);
    for seed in 0..CROWDS {
        let plan = crowded_plan(heap, &mut Dice::new(seed))?;
        trial.plan(plan.as_slice())?;
    }
    trial.tally.has_read(&rt, 10);
    trial.tally.has_refused(&rt, &[6, 8, 9], 5);
    Ok(())
}

#[test]
fn long_clocks_are_judged_alike(rt: HostRuntime) -> Result<(), Fail> {
    let mut trial = Trial::new(&rt, rt.alloc());
    for seed in 0..CLOCKS {
        trial.sizes(seed)?;
    }
    trial.tally.has_read(&rt, 1000);
    trial.tally.has_refused(&rt, &[10], 1000);
    Ok(())
}
