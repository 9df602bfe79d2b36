// Sheets: a budget, a hand and the words of the cells, as the program reads them.
#![tactic(auto)]

mod malformed;
mod reading;

pub use malformed::Malformed;
pub use reading::{LONGEST, MOST_CELLS, Sheet, read_sheet};
