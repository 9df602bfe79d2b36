// What each instruction does with the words that it names: its checks in their order, and the effect that is left to perform.
#![tactic(auto)]

mod arithmetic;
mod cells;
mod effect;
mod inspection;
mod jumps;
mod narrowing;
mod shifting;

pub use arithmetic::{lt, minus, plus, quot};
pub use cells::{load, store};
pub use effect::Effect;
pub use inspection::{Part, get, isptr};
pub use jumps::{entered, jnz};
pub use narrowing::{restrict, subseg};
pub use shifting::lea;
