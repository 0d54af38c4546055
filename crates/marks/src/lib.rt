// The marks of places, and what a row of them comes to: a pick by either wish and the tally.
#![tactic(auto)]

pub mod mark;
pub mod pick;
pub mod pursuer;
pub mod row;
pub mod runner;
pub mod tally;
#[cfg(test)]
mod tests;
pub mod wish;
