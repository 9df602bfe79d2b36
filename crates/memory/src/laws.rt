ghost use Rattle.std.specs.Prelude.{◌≡◌, ◌+◌, length, slice_set};
ghost use Rattle.words.specs.Meaning.{meaning};
ghost use Rattle.memory.specs.Row.{load_answer, loaded_after, store_answer, stored_answer};
ghost use Rattle.memory.specs.Joins.{joined_row};

use super::joined::JoinedMemory;
use super::memory::Memory;
use words::{Refusal, Word};

// Stores a word and then loads one: the word that was stored if it is the same cell, and the old one elsewhere. The size stays.
pub fn store_then_load<M: Memory>(
    memory: &mut M,
    address: usize,
    word: Word,
    read: usize,
) -> Result<Word, Refusal>
    ensures answer { load_answer result ≡ loaded_after (M.Memory.row memory.old) address (meaning word) read }
    ensures after { M.Memory.row memory.new ≡ slice_set (M.Memory.row memory.old) address (meaning word) }
    ensures rest { M.Memory.beyond memory.new ≡ M.Memory.beyond memory.old }
    ensures lent { M.Memory.lent memory.new ≡ M.Memory.lent memory.old }
    ensures size { length (M.Memory.row memory.new) ≡ length (M.Memory.row memory.old) }
{
    let _ = memory.store(address, word);
    memory.load(read)
}

// Stores two words to one address: the last one stays.
pub fn store_twice<M: Memory>(
    memory: &mut M,
    address: usize,
    earlier: Word,
    later: Word,
) -> Result<(), Refusal>
    ensures answer { store_answer result ≡ stored_answer (M.Memory.row memory.old) address }
    ensures after { M.Memory.row memory.new ≡ slice_set (M.Memory.row memory.old) address (meaning later) }
    ensures rest { M.Memory.beyond memory.new ≡ M.Memory.beyond memory.old }
    ensures lent { M.Memory.lent memory.new ≡ M.Memory.lent memory.old }
{
    let _ = memory.store(address, earlier);
    memory.store(address, later)
}

// How many cells a memory has less than its kind can have. No size exceeds the most, so the difference is there.
pub fn spare_cells<M: Memory>(memory: &M) -> usize
    ensures { result + length (M.Memory.row memory.now) ≡ M.Memory.most }
{
    M::most_cells() - memory.size()
}

// Groups a pile of three the other way: its row stays, since joining is associative.
pub fn regroup<F: Memory, S: Memory, T: Memory>(
    pile: JoinedMemory<JoinedMemory<F, S>, T>,
) -> JoinedMemory<F, JoinedMemory<S, T>>
    ensures row { joined_row (F.Memory.row result.first) (joined_row (S.Memory.row result.second.first) (T.Memory.row result.second.second)) ≡ joined_row (joined_row (F.Memory.row pile.first.first) (S.Memory.row pile.first.second)) (T.Memory.row pile.second) }
    ensures first { result.first ≡ pile.first.first }
    ensures second { result.second.first ≡ pile.first.second }
    ensures third { result.second.second ≡ pile.second }
{
    let (front, third) = pile.into_parts();
    let (first, second) = front.into_parts();
    JoinedMemory::new(first, JoinedMemory::new(second, third))
}
