#![tactic(auto, unfolding(model::proofs::Checks::rules))]

ghost use Rattle.std.specs.Prelude.{◌≡◌};
ghost use Rattle.words.specs.Word.{is_local};
ghost use Rattle.words.specs.Meaning.{cap_of, meaning};
ghost use Rattle.model.specs.Effects.{loading, storing};
ghost use Rattle.effects.specs.Meant.{Does};
ghost use Rattle.effects.specs.Reaching.{reached};

use super::effect::Effect;
use model::Fault;
use words::{Capability, Word};

// A load through the source.
pub fn load(d: u32, source: Word) -> Result<Effect, Fault>
    ensures { Does result (loading d (meaning source)) }
{
    let c = source.capability().ok_or(Fault::WrongKind)?;
    let address = reached(c, c.permission().reads())?;
    Ok(Effect::Read { d, address })
}

// A store of the word through the target.
pub fn store(target: Word, word: Word) -> Result<Effect, Fault>
    ensures { Does result (storing (meaning target) (meaning word)) }
{
    let c = target.capability().ok_or(Fault::WrongKind)?;
    let address = reached(c, c.permission().writes())?;
    if is_local(word) && !c.permission().stores_local() {
        return Err(Fault::LocalNotStorable);
    }
    Ok(Effect::Write { address, word })
}

// The address that a capability points at, if it permits the access and covers the address.
fn reached(c: Capability, permitted: bool) -> Result<u32, Fault>
    ensures { result ≡ reached (cap_of c) permitted }
{
    if !permitted {
        return Err(Fault::NotPermitted);
    }
    if !c.covers(c.cursor()) {
        return Err(Fault::NotCovered);
    }
    Ok(c.cursor())
}

fn is_local(word: Word) -> bool
    ensures { result ≡ is_local (meaning word) }
{
    word.capability().is_some_and(|c| c.locality().is_local())
}
