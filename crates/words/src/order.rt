ghost use Rattle.std.specs.Prelude.{◌≡◌, Bool, true};

// When one value is below another: it allows no more. No PartialOrd, which would have to answer from both directions at once: the rules ask for one.
pub trait Order {
    // whether the first value is below the second
    ghost under: { Self → Self → Bool };

    fn below(&self, other: &Self) -> bool
        ensures { result ≡ under self.now other.now };

    ghost reflexive: { (x : Self) → under x x ≡ true };

    ghost antisymmetric: { (x y : Self) → under x y ≡ true → under y x ≡ true → x ≡ y };

    ghost transitive: { (x y z : Self) → under x y ≡ true → under y z ≡ true → under x z ≡ true };
}
