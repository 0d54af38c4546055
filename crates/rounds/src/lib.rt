//! The words of a table: what a begin, a round, a finish and an abandoning write, each told the arena.
#![tactic(auto)]

pub mod begin;
pub mod fill;
pub mod finish;
pub mod made;
pub mod round;
mod scan;

pub use begin::begin_table;
pub use fill::clear_table;
pub use finish::finish_table;
pub use round::round_table;
