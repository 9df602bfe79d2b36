#![tactic(auto, unfolding(model::proofs::Checks::rules))]

ghost use Rattle.std.specs.Prelude.{◌≡◌, ◌≤◌, List};
ghost use Rattle.words.specs.Word.{Word as ModelWord};
ghost use Rattle.words.specs.Meaning.{cap_of, meaning};
ghost use Rattle.model.specs.Effects.{testing, inspecting};
ghost use Rattle.effects.specs.Meant.{effect_on, Does};
ghost use Rattle.effects.specs.Parts.{part_of};

use super::effect::Effect;
use model::Fault;
use words::{Capability, Word};

// A number that a capability has. An enum: where `get` took a closure, each caller would owe a proof that the closure may be called.
#[derive(Clone, Copy, Debug, PartialEq, Eq)]
pub enum Part {
    Permission,
    Locality,
    Base,
    End,
    Cursor,
}

// 1 for a capability, 0 for an integer.
pub fn isptr(d: u32, word: Word) -> Effect
    ensures { (r : List ModelWord) → effect_on r result ≡ testing d (meaning word) }
{
    Effect::Put {
        d,
        word: Word::Int(i32::from(word.capability().is_some())),
    }
}

// The instructions getp, getl, getb, gete and geta, by the part that they get.
pub fn get(d: u32, word: Word, part: Part) -> Result<Effect, Fault>
    ensures { Does result (inspecting (part_of part) d (meaning word)) }
{
    let c = word.capability().ok_or(Fault::WrongKind)?;
    Ok(Effect::Put {
        d,
        word: Word::Int(number(c, part).cast_signed()),
    })
}

fn number(c: Capability, part: Part) -> u32
    ensures value { result ≡ part_of part (cap_of c) }
    ensures small { result ≤ 65536 }
{
    match part {
        Part::Permission => u32::from(c.permission()),
        Part::Locality => u32::from(c.locality()),
        Part::Base => c.base(),
        Part::End => c.end(),
        Part::Cursor => c.cursor(),
    }
}
