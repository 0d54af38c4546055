//! Reads a sheet line by line. What is read borrows the sheet.
#![tactic(auto)]

mod field;
pub mod line;
pub mod part;
pub mod read;
pub mod refusal;
mod rest;
mod step;
#[cfg(test)]
mod tests;
