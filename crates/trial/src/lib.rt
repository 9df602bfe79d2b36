// A trial of a sheet on a bench, and its report.
#![tactic(auto)]

mod changes;
mod report;
mod trying;

pub use changes::ChangedCell;
pub use report::{Ending, Report};
pub use trying::{AREA, trial};
