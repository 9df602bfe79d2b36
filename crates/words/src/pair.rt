ghost use Rattle.std.specs.Prelude.{◌≡◌, Bool, true, ◌&&◌};
ghost use Rattle.std.proofs.Common.{rules};

use super::bounds::Bounds;
use super::locality::Locality;
use super::order::Order;
use super::permission::Permission;

// Two values that each have an order.
#[derive(Clone, Copy, Debug, PartialEq, Eq)]
pub struct Pair<A: Order, B: Order> {
    pub first: A,
    pub second: B,
}

// One pair is below another when both halves are.
impl<A: Order, B: Order> Order for Pair<A, B> {
    ghost under = { λ p q. A.Order.under p.first q.first && B.Order.under p.second q.second };

    ghost reflexive = { Prim.search rules };

    ghost antisymmetric = { Prim.search rules };

    ghost transitive = { Prim.search rules };

    fn below(&self, other: &Pair<A, B>) -> bool {
        self.first.below(&other.first) && self.second.below(&other.second)
    }
}

// What a capability allows, and whether it may be stored anywhere.
pub type Rights = Pair<Permission, Locality>;

// All that a capability gives its holder, the cursor aside.
pub type Authority = Pair<Rights, Bounds>;
