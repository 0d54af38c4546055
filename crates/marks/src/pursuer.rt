// The pursuer's pick of a row.
pub use crate::pick::PursuerPick;
