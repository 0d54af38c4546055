use crate::answer::{Answer, Stop};
use std::alloc::Global;
use std::collections::BTreeMap;
use std::process::Abort;
use std::test::Fail;

// How often sheets were read, and how often each refusal was told, by its number.
#[derive(Drop)]
pub struct Tally {
    read: u32,
    refused: BTreeMap<u8, u32>,
}

impl Tally {
    pub fn new(heap: Global) -> Tally {
        Tally {
            read: 0,
            refused: BTreeMap::new(heap),
        }
    }

    // Counts an answer; want of memory is a failure.
    pub fn count(&mut self, answer: &Answer) -> Result<(), Fail> {
        match answer {
            Ok(_) => self.read = self.read.saturating_add(1),
            Err(Stop::Broken(told)) => {
                let times = self.refused.entry(told.number)?.or_insert(0);
                *times = times.saturating_add(1);
            }
            Err(Stop::NoMemory) => return Err(Fail::new("no memory")),
        }
        Ok(())
    }

    // Wants that so many sheets were read.
    pub fn has_read(&self, rt: &impl Abort, least: u32) {
        let read = self.read;
        assert!(rt; read >= least, "{read} sheets read");
    }

    // Wants that each of these refusals was told so often.
    pub fn has_refused(&self, rt: &impl Abort, numbers: &[u8], least: u32) {
        for number in numbers {
            let times = self.refused.get(number).copied().unwrap_or(0);
            assert!(rt; times >= least, "refusal {number}, {times} times");
        }
    }
}
