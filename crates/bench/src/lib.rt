// The bench: a memory that modules are tried on, idle or with a visit open.
#![tactic(auto)]

mod states;

pub use states::{Idle, Visit};
