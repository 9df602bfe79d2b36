// The instructions of the machine, and the integers that they pack into.
#![tactic(auto)]

mod fields;
mod instruction;
mod operand;
mod packing;
mod parts;
mod unpacking;

pub use instruction::{Instruction, Operand};
pub use packing::pack;
pub use parts::Parts;
pub use unpacking::unpack;
