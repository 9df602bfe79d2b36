// The words of a machine with capabilities: permissions, localities, bounds and their orders, capabilities, and refusals.
#![tactic(auto)]

mod bounds;
mod capability;
mod locality;
mod order;
mod pair;
mod permission;
mod refusal;
mod word;

pub use bounds::Bounds;
pub use capability::Capability;
pub use locality::Locality;
pub use order::Order;
pub use pair::{Authority, Pair, Rights};
pub use permission::Permission;
pub use refusal::Refusal;
pub use word::{REGISTERS, Word};
