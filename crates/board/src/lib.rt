//! Gated boards as plain rows: patterns, gates, the clock, a board in the making, and the board.
#![tactic(auto)]

pub mod board;
mod clock;
pub mod draft;
pub mod gate;
pub mod laws;
pub mod pattern;
#[cfg(test)]
mod tests;

pub use board::Board;
pub use draft::Draft;
pub use gate::Gate;
pub use pattern::Pattern;
