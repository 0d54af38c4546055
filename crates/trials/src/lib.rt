//! Trials of the solver and the checker on small arenas and boards whose tables are known, and a lender that knows its table.
#![tactic(auto)]

#[cfg(test)]
mod boards;
#[cfg(test)]
mod checks;
pub mod lender;
#[cfg(test)]
mod lists;
#[cfg(test)]
mod openings;
#[cfg(test)]
mod refused;
#[cfg(test)]
mod runs;
#[cfg(test)]
mod traps;
