ghost use Rattle.std.specs.Prelude.{◌≡◌, List};
ghost use Rattle.words.specs.Word.{Word as ModelWord, at};
ghost use Rattle.words.specs.Meaning.{meaning};
ghost use Rattle.model.specs.Effects.{entered as entering, jumping};
ghost use Rattle.effects.specs.Meant.{effect_on};

use super::effect::Effect;
use words::{Pair, Word};

// A jump to the word of a register, unless the word is the integer 0.
pub fn jnz(d: u32, word: Word) -> Effect
    ensures { (r : List ModelWord) → effect_on r result ≡ jumping (at r d) (meaning word) }
{
    match word {
        Word::Int(0) => Effect::Pass,
        _ => Effect::Jump { d },
    }
}

// The word as a jump puts it into the pc: an E turned to RX, its locality and bounds as they were.
pub fn entered(word: Word) -> Word
    ensures { meaning result ≡ entering (meaning word) }
{
    match word {
        Word::Int(value) => Word::Int(value),
        Word::Cap(c) => Word::Cap(c.with_rights(Pair {
            first: c.permission().entered(),
            second: c.locality(),
        })),
    }
}
