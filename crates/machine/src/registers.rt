#![tactic(auto, unfolding(model::proofs::Checks::rules))]

ghost use Rattle.std.specs.Prelude.{◌≡◌, replicate, slice_set};
ghost use Rattle.words.specs.Word.{at, zero_word};
ghost use Rattle.words.specs.Meaning.{meaning};
ghost use Rattle.groups.specs.Hands.{hand_words};
ghost use Rattle.memory.specs.Row.{load_answer};
ghost use Rattle.model.specs.Effects.{value};
ghost use Rattle.model.specs.Step.{place_of};
ghost use Rattle.machine.specs.Files.{file, register_read, Shifted};

use effects::lea;
use groups::{Hand, plain_word};
use instructions::Operand;
use model::Fault;
use words::{REGISTERS, Refusal, Word};

// The words of the sixteen registers; register 0 is the pc. A higher number names none: it reads as the integer 0, and nothing is put there.
#[derive(Clone, Copy, Debug, PartialEq, Eq)]
pub struct Registers {
    words: [Word; REGISTERS],
}

// The words of a hand.
impl From<&Hand> for Registers {
    ghost from_gives = { λ hand r. file r ≡ hand_words hand.now };

    // One loop, by the index as in `put`: `map` would go over the sixteen three times.
    fn from(hand: &Hand) -> Registers {
        let mut words = [Word::Int(0); REGISTERS];
        for (i, number) in hand.numbers.iter().enumerate() {
            words[i] = plain_word(*number);
        }
        Registers { words }
    }
}

impl Registers {
    // Every register at integer 0.
    pub fn new() -> Registers
        ensures { file result ≡ replicate 16 zero_word }
    {
        Registers {
            words: [Word::Int(0); REGISTERS],
        }
    }

    // The word of a register; refused where there is no such register.
    pub fn read(&self, register: usize) -> Result<Word, Refusal>
        ensures { load_answer result ≡ register_read (file self.now) register }
    {
        self.words.get(register).copied().ok_or(Refusal::NoRegister)
    }

    // The word of register 0.
    pub(crate) fn pc(&self) -> Word
        ensures { meaning result ≡ at (file self.now) 0 }
    {
        self.words[0]
    }

    // The word of register 0 once a register has got a word.
    pub(crate) fn pc_after(&self, number: u32, word: Word) -> Word
        ensures { meaning result ≡ at (slice_set (file self.now) number (meaning word)) 0 }
    {
        if number == 0 { word } else { self.pc() }
    }

    // The cursor of the pc, absent where it holds an integer.
    pub(crate) fn place(&self) -> Option<u32>
        ensures { result ≡ place_of (at (file self.now) 0) }
    {
        self.pc().capability().map(|pc| pc.cursor())
    }

    pub(crate) fn get(&self, number: u32) -> Word
        ensures { meaning result ≡ at (file self.now) number }
    {
        self.read(number as usize).unwrap_or(Word::Int(0))
    }

    // The word that an operand names.
    pub(crate) fn value(&self, operand: Operand) -> Word
        ensures { meaning result ≡ value (file self.now) operand }
    {
        match operand {
            Operand::Register(number) => self.get(number),
            Operand::Constant(constant) => Word::Int(constant),
        }
    }

    // By its index: once the borrow of `get_mut` is over, no proof knows what stands in the array.
    pub(crate) fn put(&mut self, number: u32, word: Word)
        ensures { file self.new ≡ slice_set (file self.old) number (meaning word) }
    {
        let index = number as usize;
        if index < self.words.len() {
            self.words[index] = word;
        }
    }

    // Moves the cursor of one register, which is lent for that, by its index as in `put`.
    pub(crate) fn shift(&mut self, number: u32, by: Word) -> Result<(), Fault>
        ensures { Shifted (file self.old) number (meaning by) result (file self.new) }
    {
        let words: &mut [Word] = &mut self.words;
        let index = number as usize;
        if index >= words.len() {
            return Err(Fault::WrongKind);
        }
        lea(&mut words[index], by)
    }
}
