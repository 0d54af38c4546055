// The runner's pick of a row.
pub use crate::pick::RunnerPick;
