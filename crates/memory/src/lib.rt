// Memories: what one is, said once as a trait, and three kinds of it.
#![tactic(auto)]

mod joined;
mod laws;
mod lent;
mod memory;
mod packed;
mod table;

pub use joined::JoinedMemory;
pub use laws::{regroup, spare_cells, store_then_load, store_twice};
pub use memory::{CELLS, Memory};
pub use packed::{PackedMemory, load_packed};
pub use table::TableMemory;
