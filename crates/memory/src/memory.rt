ghost use Rattle.std.specs.Prelude.{◌≡◌, ℕ, ◌≤◌, List, length, slice_set};
ghost use Rattle.words.specs.Word.{Word as ModelWord};
ghost use Rattle.words.specs.Meaning.{meaning};
ghost use Rattle.memory.specs.Row.{load_answer, loaded, store_answer, stored_answer};

use words::{Refusal, Word};

// The most cells that any memory has.
pub const CELLS: usize = 65536;

// A row of words from address 0, of a length that never changes.
pub trait Memory {
    // the most cells that a memory of this kind can have
    const MOST: usize;

    // the words, from address 0
    ghost row: { Self → List ModelWord };

    // what else of the borrowed memory there is, which no store touches; each call that stores says so of its memory before and after, for which an invariant,
    // which speaks of one state, can't stand
    ghost beyond: { Self → List ℕ };

    // the ghost names of the loans that it holds, by which a caller knows what it gets back; said at each store, as `beyond` is
    ghost lent: { Self → List ℕ };

    // MOST, in clauses; a ghost MOST beside the constant gets no proof where the impl has a lifetime
    ghost most: { ℕ };

    // the size never exceeds the most
    ghost bounded: { (m : Self) → length (row m) ≤ most };

    ghost few: { most ≤ 65536 };

    // MOST, for code that has any kind of memory: `M::MOST` is known to no clause there.
    fn most_cells() -> usize
        ensures { result ≡ most };

    // How many cells there are.
    fn size(&self) -> usize
        ensures value { result ≡ length (row self.now) }
        ensures small { result ≤ 65536 };

    // The word at an address; refused where there is no such cell.
    fn load(&self, address: usize) -> Result<Word, Refusal>
        ensures { load_answer result ≡ loaded (row self.now) address };

    // Replaces the word at an address; refused where there is no such cell. Past the end `set` changes nothing, so that `after` speaks of both.
    fn store(&mut self, address: usize, word: Word) -> Result<(), Refusal>
        ensures answer { store_answer result ≡ stored_answer (row self.old) address }
        ensures after { row self.new ≡ slice_set (row self.old) address (meaning word) }
        ensures rest { beyond self.new ≡ beyond self.old }
        ensures lent { lent self.new ≡ lent self.old };
}
