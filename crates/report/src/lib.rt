//! A sheet solved from beginning to end, and what is printed of it.
#![tactic(auto)]

pub mod failure;
mod puzzle;
pub mod report;
pub mod solve_sheet;
#[cfg(test)]
mod tests;

pub use failure::Failure;
pub use report::Report;
