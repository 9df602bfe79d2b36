ghost use Rattle.std.specs.Prelude.{◌≡◌, replicate};
ghost use Rattle.words.specs.Word.{zero_word};
ghost use Rattle.words.specs.Meaning.{meaning};
ghost use Rattle.groups.specs.Hands.{hand_words, given_word, word_in, Set};

use super::number::{encode, plain_word};
use words::{REGISTERS, Refusal, Word};

// Sixteen words as plain numbers, one for each register from register 0 (the pc) on: what a visit is opened with. A number that packs no word means
// integer 0. An array, since a hand has sixteen words, no more and no fewer.
#[derive(Clone, Copy, Debug, PartialEq, Eq)]
pub struct Hand {
    pub numbers: [u64; REGISTERS],
}

impl Hand {
    // Every word integer 0.
    pub fn new() -> Hand
        ensures { hand_words result ≡ replicate 16 zero_word }
    {
        Hand {
            numbers: [0; REGISTERS],
        }
    }

    // Sets the word for a register; refused where there is no such register.
    pub fn set(&mut self, register: usize, word: &Word) -> Result<(), Refusal>
        ensures { Set self.old register (meaning word.now) result self.new }
    {
        // by the index: once the borrow of `get_mut` is over, no proof knows what stands in the array
        if register >= REGISTERS {
            return Err(Refusal::NoRegister);
        }
        self.numbers[register] = encode(word);
        Ok(())
    }

    // The word for a register; refused where there is no such register.
    pub fn word(&self, register: usize) -> Result<Word, Refusal>
        ensures { given_word result ≡ word_in self.now register }
    {
        let number = self.numbers.get(register).ok_or(Refusal::NoRegister)?;
        Ok(plain_word(*number))
    }
}
