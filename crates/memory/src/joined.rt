ghost use Rattle.std.specs.Prelude.{◌≡◌, ◌++◌, slice_set};
ghost use Rattle.std.proofs.Common.{lit≤};
ghost use Rattle.words.specs.Meaning.{meaning};
ghost use Rattle.memory.specs.Row.{store_answer, stored_answer};
ghost use Rattle.memory.specs.Joins.{joined_row, joined_bounded, joined_beyond, second_after, ToldApart};

use super::memory::{CELLS, Memory};
use words::{Refusal, Word};

// Any second memory behind any first, cut at 65,536 cells. Cells of the second beyond the cut are never touched.
#[derive(Drop)]
pub struct JoinedMemory<F, S> {
    first: F,
    second: S,
}

impl<F: Memory, S: Memory> JoinedMemory<F, S> {
    pub fn new(first: F, second: S) -> JoinedMemory<F, S>
        ensures first { result.first ≡ first }
        ensures second { result.second ≡ second }
    {
        JoinedMemory { first, second }
    }

    // The two memories again, and what is known of each by what is known of the whole.
    pub fn into_parts(self) -> (F, S)
        ensures first { result.0 ≡ self.first }
        ensures second { result.1 ≡ self.second }
        ensures apart { ToldApart (F.Memory.row self.first) (S.Memory.row self.second) (F.Memory.beyond self.first) (S.Memory.beyond self.second) }
    {
        let JoinedMemory { first, second } = self;
        (first, second)
    }
}

impl<F: Memory, S: Memory> Memory for JoinedMemory<F, S> {
    const MOST: usize = CELLS;

    ghost row = { λ j. joined_row (F.Memory.row j.first) (S.Memory.row j.second) };

    ghost beyond = { λ j. joined_beyond (F.Memory.row j.first) (S.Memory.row j.second) (F.Memory.beyond j.first) (S.Memory.beyond j.second) };

    ghost lent = { λ j. F.Memory.lent j.first ++ S.Memory.lent j.second };

    ghost most = { 65536 };

    ghost bounded = { λ j. joined_bounded (F.Memory.row j.first) (S.Memory.row j.second) };

    ghost few = { lit≤ tt };

    fn most_cells() -> usize {
        CELLS
    }

    fn size(&self) -> usize {
        (self.first.size() + self.second.size()).min(CELLS)
    }

    fn load(&self, address: usize) -> Result<Word, Refusal> {
        let seam = self.first.size();
        if address < seam {
            return self.first.load(address);
        }
        if address >= CELLS {
            return Err(Refusal::NoCell);
        }
        self.second.load(address - seam)
    }

    // What the trait asks at this row, and how each part's row ends.
    fn store(&mut self, address: usize, word: Word) -> Result<(), Refusal>
        ensures answer { store_answer result ≡ stored_answer (joined_row (F.Memory.row self.old.first) (S.Memory.row self.old.second)) address }
        ensures after { joined_row (F.Memory.row self.new.first) (S.Memory.row self.new.second) ≡ slice_set (joined_row (F.Memory.row self.old.first) (S.Memory.row self.old.second)) address (meaning word) }
        ensures rest { joined_beyond (F.Memory.row self.new.first) (S.Memory.row self.new.second) (F.Memory.beyond self.new.first) (S.Memory.beyond self.new.second) ≡ joined_beyond (F.Memory.row self.old.first) (S.Memory.row self.old.second) (F.Memory.beyond self.old.first) (S.Memory.beyond self.old.second) }
        ensures lent { F.Memory.lent self.new.first ++ S.Memory.lent self.new.second ≡ F.Memory.lent self.old.first ++ S.Memory.lent self.old.second }
        ensures first { F.Memory.row self.new.first ≡ slice_set (F.Memory.row self.old.first) address (meaning word) }
        ensures second { S.Memory.row self.new.second ≡ second_after (F.Memory.row self.old.first) (S.Memory.row self.old.second) address (meaning word) }
    {
        let seam = self.first.size();
        if address < seam {
            return self.first.store(address, word);
        }
        if address >= CELLS {
            return Err(Refusal::NoCell);
        }
        self.second.store(address - seam, word)
    }
}
