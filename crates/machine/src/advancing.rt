#![tactic(auto, unfolding(model::proofs::Checks::rules))]

ghost use Rattle.std.specs.Prelude.{◌≡◌, List, slice_set};
ghost use Rattle.words.specs.Word.{Word as ModelWord, at};
ghost use Rattle.words.specs.Meaning.{meaning};
ghost use Rattle.model.specs.Machine.{put as Put, pass as Pass};
ghost use Rattle.model.specs.Effects.{shifting, entered as entering};
ghost use Rattle.model.specs.Step.{perform as performed};
ghost use Rattle.machine.specs.Files.{file};
ghost use Rattle.machine.specs.Flows.{machine, next_given, next_of, Goes};

use super::registers::Registers;
use effects::entered;
use model::Fault;
use words::Word;

// The pc one further, where it can be.
pub(crate) fn next(pc: Word) -> Result<Word, Fault>
    ensures { next_given result ≡ next_of (meaning pc) }
{
    let c = pc.capability().ok_or(Fault::CannotAdvance)?;
    let advanced = c
        .with_cursor(c.cursor() + 1)
        .map_err(|_| Fault::CannotAdvance)?;
    Ok(Word::Cap(advanced))
}

impl Registers {
    // Advances the pc.
    pub(crate) fn advance(&mut self) -> Result<(), Fault>
        ensures { (cells : List ModelWord) → Goes (machine self.old cells) (performed (file self.old) cells Pass) result (machine self.new cells) }
    {
        let advanced = next(self.pc())?;
        self.put(0, advanced);
        Ok(())
    }

    // Puts a word into the register and advances.
    pub(crate) fn put_and_advance(&mut self, d: u32, word: Word) -> Result<(), Fault>
        ensures { (cells : List ModelWord) → Goes (machine self.old cells) (performed (file self.old) cells (Put d (meaning word))) result (machine self.new cells) }
    {
        let advanced = next(self.pc_after(d, word))?;
        self.put(d, word);
        self.put(0, advanced);
        Ok(())
    }

    // Moves the cursor of the register and advances. Where the pc cannot advance, the register gets its word back.
    pub(crate) fn shift_and_advance(&mut self, d: u32, by: Word) -> Result<(), Fault>
        ensures { (cells : List ModelWord) → Goes (machine self.old cells) (performed (file self.old) cells (shifting d (at (file self.old) d) (meaning by))) result (machine self.new cells) }
    {
        let old = self.get(d);
        self.shift(d, by)?;
        if let Err(stuck) = self.advance() {
            self.put(d, old);
            return Err(stuck);
        }
        Ok(())
    }

    // Puts the word of the register into the pc, as a jump does.
    pub(crate) fn jump(&mut self, d: u32)
        ensures { file self.new ≡ slice_set (file self.old) 0 (entering (at (file self.old) d)) }
    {
        self.put(0, entered(self.get(d)));
    }
}
