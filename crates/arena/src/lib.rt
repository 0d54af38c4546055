//! Arenas of pursuit games: what a game is, what is claimed of its marks and plans, and how an arena is asked about it.
#![tactic(auto)]

pub mod admit;
pub mod bytes;
pub mod interface;
pub mod kind;
pub mod listing;
pub mod listing_refusal;
pub mod player;
#[cfg(test)]
mod tests;
pub mod unfit;

pub use admit::admitted;
pub use bytes::first_above;
pub use interface::Arena;
pub use kind::Kind;
pub use listing::Listing;
pub use player::Player;
