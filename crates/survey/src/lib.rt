// The survey of a hand: which cells of a memory its holder can reach, and which of them it can write.
#![tactic(auto)]

mod level;
mod marking;
mod search;
mod skips;
mod surveying;

pub use surveying::{Counts, survey};
