// The machine: registers, one step on any memory, and runs.
#![tactic(auto)]

mod advancing;
mod fetching;
mod flow;
mod machine;
mod performing;
mod registers;
mod running;

pub use flow::Flow;
pub use machine::Machine;
pub use registers::Registers;
pub use running::Outcome;
