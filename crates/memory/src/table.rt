ghost use Rattle.std.specs.Prelude.{◌≡◌, [], ◌∷◌, drop, slice_set};
ghost use Rattle.std.proofs.Common.{lit≤};
ghost use Rattle.words.specs.Meaning.{meaning};
ghost use Rattle.memory.specs.Row.{store_answer, stored_answer};
ghost use Rattle.memory.specs.Tables.{table_row, table_after, table_bounded};

use super::memory::{CELLS, Memory};
use groups::{encode, plain_word};
use words::{Refusal, Word};

// A memory on a borrowed row of numbers, one cell to each up to 65,536. A number that packs no word means integer 0; numbers beyond are never touched.
#[derive(Drop)]
pub struct TableMemory<'a> {
    numbers: &'a mut [u64],
}

impl<'a> TableMemory<'a> {
    pub fn new(numbers: &'a mut [u64]) -> TableMemory<'a>
        ensures { result.numbers ≡ numbers.entry }
    {
        Self { numbers }
    }

    // The borrowed row again.
    pub fn back(self) -> &'a mut [u64]
        ensures { result ≡ self.entry.numbers }
    {
        let TableMemory { numbers } = self;
        numbers
    }
}

impl<'a> Memory for TableMemory<'a> {
    const MOST: usize = CELLS;

    ghost row = { λ t. table_row t.numbers.now };

    ghost beyond = { λ t. drop 65536 t.numbers.now };

    ghost lent = { λ t. t.numbers.ghost_name ∷ [] };

    ghost most = { 65536 };

    ghost bounded = { λ t. table_bounded t.numbers.now };

    ghost few = { lit≤ tt };

    fn most_cells() -> usize
        ensures value { result ≡ 65536 }
        ensures constant { result ≡ CELLS }
    {
        Self::MOST
    }

    fn size(&self) -> usize {
        self.numbers.len().min(Self::MOST)
    }

    fn load(&self, address: usize) -> Result<Word, Refusal> {
        // by the size and not by `get` alone: numbers past the last cell are there, and are no cells
        if address >= self.size() {
            return Err(Refusal::NoCell);
        }
        Ok(plain_word(self.numbers[address]))
    }

    // What the trait asks at this row, and how every number ends.
    fn store(&mut self, address: usize, word: Word) -> Result<(), Refusal>
        ensures answer { store_answer result ≡ stored_answer (table_row self.old.numbers.now) address }
        ensures after { table_row self.new.numbers.now ≡ slice_set (table_row self.old.numbers.now) address (meaning word) }
        ensures rest { drop 65536 self.new.numbers.now ≡ drop 65536 self.old.numbers.now }
        ensures lent { self.new.numbers.ghost_name ∷ [] ≡ self.old.numbers.ghost_name ∷ [] }
        ensures numbers { self.new.numbers.now ≡ table_after self.old.numbers.now address (meaning word) }
    {
        if address >= (*self).size() {
            return Err(Refusal::NoCell);
        }
        self.numbers[address] = encode(&word);
        Ok(())
    }
}
