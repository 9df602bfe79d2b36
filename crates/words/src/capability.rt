ghost use Rattle.std.specs.Prelude.{◌≤◌};

use super::locality::Locality;
use super::permission::Permission;

mod methods;
mod parts;

// What its holder may reach: the addresses from `base` up to and without `end`. The cursor is the address that it points at. A base above the end is
// allowed, and covers nothing.
#[derive(Clone, Copy, Debug, PartialEq, Eq)]
pub struct Capability {
    base: u32,
    end: u32,
    cursor: u32,
    permission: Permission,
    locality: Locality,
    ghost within: { (base ≤ 65536) × (end ≤ 65536) × (cursor ≤ 65536) },
}
