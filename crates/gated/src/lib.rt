//! The arena of a gated board, with an index of the exits of every spot at every step.
#![tactic(auto)]

pub mod gated;
mod index;
pub mod laws;
pub mod parts;
pub mod refusal;
#[cfg(test)]
mod tests;

pub use gated::Gated;
pub use parts::Parts;
