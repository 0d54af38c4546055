//! Generated sheets, lawful and damaged, read by `sheet` and by a reader that is written another way.
#![tactic(auto)]

#[cfg(test)]
mod agree;
#[cfg(test)]
mod answer;
#[cfg(test)]
mod clock;
#[cfg(test)]
mod damage;
#[cfg(test)]
mod dice;
#[cfg(test)]
mod grammar;
#[cfg(test)]
mod limits;
#[cfg(test)]
mod plan;
#[cfg(test)]
mod reader;
#[cfg(test)]
mod tally;
#[cfg(test)]
mod tests;
