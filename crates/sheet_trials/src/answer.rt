use lines::refusal::Told;
use std::alloc::{AllocError, AllocFailed};

// A gate's ends, its open steps as bits, the first the lowest, and how many steps it has.
#[derive(Clone, Copy, PartialEq, Eq, Debug)]
pub struct Row {
    pub from: u32,
    pub to: u32,
    pub bits: u32,
    pub steps: u32,
}

// Two spots as a pair, the lower first.
pub fn pair(u: u32, v: u32) -> (u32, u32) {
    (u.min(v), u.max(v))
}

// What a sheet writes.
#[derive(PartialEq, Eq, Debug, Drop)]
pub struct Written {
    pub spots: u32,
    pub period: u32,
    pub gates: Vec<Row>,
    pub traps: Vec<u32>,
}

// Why a sheet is not read.
#[derive(Clone, Copy, PartialEq, Eq, Debug)]
pub enum Stop {
    Broken(Told),
    NoMemory,
}

impl From<AllocError> for Stop {
    fn from(_why: AllocError) -> Stop {
        Stop::NoMemory
    }
}

impl<T: Drop> From<AllocFailed<T>> for Stop {
    fn from(_why: AllocFailed<T>) -> Stop {
        Stop::NoMemory
    }
}

// What a reader says of a sheet.
pub type Answer = Result<Written, Stop>;
