//! A gated board with its traps, solved whole, and tables of it judged.
#![tactic(auto)]

pub mod check_board;
pub mod fault;
pub mod refusal;
pub mod solve_board;
mod trapped;

pub use refusal::{BoardFault, BoardRefusal};
