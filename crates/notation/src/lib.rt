// The text form of sheets: the names in it, and what is expected at each place of a text.
#![tactic(auto)]

mod expected;
mod laws;
mod names;

pub use expected::Expected;
pub use laws::{labels_name_cells, listings_read_back};
pub use names::{LocalityNames, Mnemonics, Names, PermissionNames, place_of};
