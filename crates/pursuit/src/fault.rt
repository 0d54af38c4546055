// Why a table of a board is not accepted.
pub use crate::refusal::BoardFault;
