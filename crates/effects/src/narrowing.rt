#![tactic(auto, unfolding(model::proofs::Checks::rules))]

ghost use Rattle.std.specs.Prelude.{◌≡◌};
ghost use Rattle.words.specs.Meaning.{meaning};
ghost use Rattle.model.specs.Effects.{restricting, narrowing};
ghost use Rattle.effects.specs.Meant.{Does};
ghost use Rattle.effects.specs.Rights.{rights_at};

use super::arithmetic::integers;
use super::effect::Effect;
use model::Fault;
use words::{Bounds, Locality, Order, Pair, Permission, Rights, Word};

// The word with the rights that A names.
pub fn restrict(d: u32, word: Word, a: Word) -> Result<Effect, Fault>
    ensures { Does result (restricting d (meaning word) (meaning a)) }
{
    let c = word.capability().ok_or(Fault::WrongKind)?;
    let code = a.integer().ok_or(Fault::WrongKind)?;
    let rights = rights(code).ok_or(Fault::UnknownPair)?;
    if !rights.below(&c.rights()) {
        return Err(Fault::NotBelow);
    }
    Ok(Effect::Put {
        d,
        word: Word::Cap(c.with_rights(rights)),
    })
}

// The rights that a number names: four times a permission's code plus a locality's code.
fn rights(code: i32) -> Option<Rights>
    ensures { result ≡ rights_at code }
{
    let code = u32::try_from(code).ok()?;
    let first = Permission::try_from(code / 4).ok()?;
    let second = Locality::try_from(code % 4).ok()?;
    Some(Pair { first, second })
}

// The word with the base A and the end B.
pub fn subseg(d: u32, word: Word, a: Word, b: Word) -> Result<Effect, Fault>
    ensures { Does result (narrowing d (meaning word) (meaning a) (meaning b)) }
{
    let c = word.capability().ok_or(Fault::WrongKind)?;
    let (base, end) = integers(a, b)?;
    if c.permission().is_enter() {
        return Err(Fault::NotPermitted);
    }
    let bounds = Bounds {
        base: u32::try_from(base).map_err(|_| Fault::OutOfRange)?,
        end: u32::try_from(end).map_err(|_| Fault::OutOfRange)?,
    };
    let narrowed = c.with_bounds(bounds).map_err(|_| Fault::OutOfRange)?;
    if !bounds.below(&c.bounds()) {
        return Err(Fault::NotBelow);
    }
    Ok(Effect::Put {
        d,
        word: Word::Cap(narrowed),
    })
}
