//! Traps: a layer of capture places over any arena.
#![tactic(auto)]

pub mod refusal;
pub mod trapped;

pub use refusal::TrapRefusal;
pub use trapped::Trapped;
