ghost use Rattle.std.specs.Prelude.{◌≡◌, Bool, true};
ghost use Rattle.words.specs.Localities.{locality_code, locality_at, local};
ghost use Rattle.words.specs.Orders.{below_locality};
ghost use Rattle.std.specs.Option.{ok_or};
ghost use Rattle.words.specs.declared.refusal.Refusal.TheVariants.{UnknownCode};
ghost use Rattle.std.proofs.Common.{rules};

use super::order::Order;
use super::refusal::Refusal;

// Whether a capability may be stored through any that writes (Global), or only through one that may store Local capabilities.
#[derive(Clone, Copy, Debug, PartialEq, Eq)]
pub enum Locality {
    Global,
    Local,
}

impl Locality {
    pub fn is_local(self) -> bool
        ensures { result ≡ local self }
    {
        matches!(self, Locality::Local)
    }
}

// The code of a locality.
impl From<Locality> for u32 {
    ghost from_gives = { λ locality code. code ≡ locality_code locality };

    fn from(locality: Locality) -> u32 {
        locality as u32
    }
}

// The locality that has a code; refused where none has it.
impl TryFrom<u32> for Locality {
    type Error = Refusal;

    ghost try_from_gives = { λ code r. r ≡ ok_or (locality_at code) UnknownCode };

    fn try_from(code: u32) -> Result<Locality, Refusal> {
        match code {
            0 => Ok(Locality::Global),
            1 => Ok(Locality::Local),
            _ => Err(Refusal::UnknownCode),
        }
    }
}

impl Order for Locality {
    ghost under = { below_locality };

    ghost reflexive = { Prim.search rules };

    ghost antisymmetric = { Prim.search rules };

    ghost transitive = { Prim.search rules };

    fn below(&self, other: &Locality) -> bool {
        self.is_local() || !other.is_local()
    }
}
