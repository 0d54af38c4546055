//! Runs over a table: begin, round, finish and abandon, and a whole solve.
#![tactic(auto)]

mod counters;
mod end;
pub mod finish_refusal;
pub mod finished;
mod phase;
pub mod run;
pub mod solve;

pub use finish_refusal::FinishRefusal;
pub use finished::Finished;
pub use run::{Run, begin, can_begin};
