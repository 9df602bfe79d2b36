#![tactic(auto, unfolding(model::proofs::Checks::rules))]

ghost use Rattle.words.specs.Meaning.{meaning};
ghost use Rattle.effects.specs.Shifts.{Shifts};

use model::Fault;
use words::Word;

// Moves the cursor of the word, which is lent for that. A fault leaves it as it was.
pub fn lea(word: &mut Word, by: Word) -> Result<(), Fault>
    ensures { Shifts (meaning word.old) (meaning by) result (meaning word.new) }
{
    let c = word.capability().ok_or(Fault::WrongKind)?;
    let distance = by.integer().ok_or(Fault::WrongKind)?;
    if c.permission().is_enter() {
        return Err(Fault::NotPermitted);
    }
    let cursor = c
        .cursor()
        .checked_add_signed(distance)
        .ok_or(Fault::OutOfRange)?;
    let moved = c.with_cursor(cursor).map_err(|_| Fault::OutOfRange)?;
    *word = Word::Cap(moved);
    Ok(())
}
