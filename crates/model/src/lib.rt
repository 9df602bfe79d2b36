// What the machine, a run, a survey and the bench mean, and the isolation findings that stand after every list of calls.
#![tactic(auto)]

mod fault;
pub mod laws;
mod status;

pub use fault::Fault;
pub use status::Status;
