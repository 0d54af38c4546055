//! Where a game on a board opens, and the runner's reply to any pursuer start.
#![tactic(auto)]

pub mod refusal;
mod rows;
pub mod start;

pub use refusal::OpeningRefusal;
pub use start::{Opening, opening_of, reply_to};
