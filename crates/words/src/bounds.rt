ghost use Rattle.std.specs.Prelude.{◌≡◌, Bool, true};
ghost use Rattle.words.specs.Orders.{below_bounds};
ghost use Rattle.std.proofs.Common.{rules};

use super::order::Order;

// The addresses from `base` up to and without `end`; none where the base is not below the end.
#[derive(Clone, Copy, Debug, PartialEq, Eq)]
pub struct Bounds {
    pub base: u32,
    pub end: u32,
}

impl Order for Bounds {
    ghost under = { below_bounds };

    ghost reflexive = { Prim.search rules };

    ghost antisymmetric = { Prim.search rules };

    ghost transitive = { Prim.search rules };

    fn below(&self, other: &Bounds) -> bool {
        self.base >= other.base && self.end <= other.end
    }
}
