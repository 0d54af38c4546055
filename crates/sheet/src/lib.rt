//! Reads a whole sheet: the board and the traps that it writes, or why it writes none.
#![tactic(auto)]

pub mod read;
mod reading;
pub mod refusal;
pub mod sheet;
#[cfg(test)]
mod tests;
