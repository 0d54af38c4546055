// Joinings: values that join in order and have an empty one. One fold over a row of marks serves them all.
#![tactic(auto)]

pub mod joining;
pub mod pair;
pub mod row;
