// How words are written down: as a plain number of 64 bits, as a group of eight bytes, and sixteen of them as a hand.
#![tactic(auto)]

mod group;
mod hand;
mod number;

pub use group::{pack, unpack};
pub use hand::Hand;
pub use number::{decode, encode, plain_word};
