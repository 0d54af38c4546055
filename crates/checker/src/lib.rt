//! Judges tables from elsewhere. It knows arenas and the table rules, and nothing of how a table is made.
#![tactic(auto)]

pub mod judge;
mod place;
pub mod refusal;

pub use judge::check;
pub use refusal::CheckRefusal;
