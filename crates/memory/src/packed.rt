ghost use Rattle.std.specs.Prelude.{◌≡◌, ◌+◌, ◌*◌, ◌≤◌, [], ◌∷◌, ◌++◌, length, drop, slice_set};
ghost use Rattle.std.proofs.Common.{lit≤};
ghost use Rattle.words.specs.Meaning.{meaning};
ghost use Rattle.groups.specs.Groups.{group_at};
ghost use Rattle.memory.specs.Row.{load_answer, loaded, store_answer, stored_answer};
ghost use Rattle.memory.specs.Packs.{packed_size, packed_row, packed_after, packed_bounded, plain_group, word_group, with_group};

use super::memory::{CELLS, Memory};
use groups::{pack, unpack};
use words::{Refusal, Word};

// A memory on borrowed bytes, one cell to each full group of eight up to 65,536. A group that packs no word means integer 0; bytes after the last cell are
// never touched. A type of its own beside the table's: one generic over numbers and bytes would need size, load, store and what lies beyond given for
// each of the two, which is all that either has.
#[derive(Drop)]
pub struct PackedMemory<'a> {
    bytes: &'a mut [u8],
}

impl<'a> PackedMemory<'a> {
    pub fn new(bytes: &'a mut [u8]) -> PackedMemory<'a>
        ensures { result.bytes ≡ bytes.entry }
    {
        Self { bytes }
    }

    // The borrowed bytes again.
    pub fn back(self) -> &'a mut [u8]
        ensures { result ≡ self.entry.bytes }
    {
        let PackedMemory { bytes } = self;
        bytes
    }
}

// The word that a cell's group means.
fn read_group(bytes: &[u8], address: usize) -> Word
    requires { 8 * address + 8 ≤ length bytes.now }
    ensures { meaning result ≡ plain_group (group_at bytes.now (8 * address)) }
{
    unpack(&bytes[8 * address..8 * address + 8]).unwrap_or(Word::Int(0))
}

fn packed_size(bytes: &[u8]) -> usize
    ensures { result ≡ packed_size bytes.now }
{
    (bytes.len() / 8).min(CELLS)
}

// The word of a cell of packed bytes, as a packed memory on them loads it; refused where there is no such cell.
pub fn load_packed(bytes: &[u8], address: usize) -> Result<Word, Refusal>
    ensures { load_answer result ≡ loaded (packed_row bytes.now) address }
{
    if address >= packed_size(bytes) {
        return Err(Refusal::NoCell);
    }
    Ok(read_group(bytes, address))
}

// Writes the word's group into the first eight bytes. It means that word.
fn put_group(bytes: &mut [u8], word: &Word)
    requires { 8 ≤ length bytes.old }
    ensures bytes { bytes.new ≡ word_group (meaning word.now) ++ drop 8 bytes.old }
    ensures back { plain_group (word_group (meaning word.now)) ≡ meaning word.now }
{
    bytes[0..8].copy_from_slice(&pack(word));
}

// Takes the bytes for writing, and lends those from the cell's group on.
fn write_group(bytes: &mut [u8], address: usize, word: &Word)
    requires { 8 * address + 8 ≤ length bytes.old }
    ensures bytes { bytes.new ≡ with_group bytes.old address (meaning word.now) }
    ensures back { plain_group (word_group (meaning word.now)) ≡ meaning word.now }
{
    put_group(&mut bytes[8 * address..], word);
}

impl<'a> Memory for PackedMemory<'a> {
    const MOST: usize = CELLS;

    ghost row = { λ t. packed_row t.bytes.now };

    ghost beyond = { λ t. drop (8 * packed_size t.bytes.now) t.bytes.now };

    ghost lent = { λ t. t.bytes.ghost_name ∷ [] };

    ghost most = { 65536 };

    ghost bounded = { λ t. packed_bounded t.bytes.now };

    ghost few = { lit≤ tt };

    fn most_cells() -> usize
        ensures value { result ≡ 65536 }
        ensures constant { result ≡ CELLS }
    {
        Self::MOST
    }

    fn size(&self) -> usize {
        packed_size(self.bytes)
    }

    fn load(&self, address: usize) -> Result<Word, Refusal> {
        load_packed(self.bytes, address)
    }

    // What the trait asks at this row, and how every byte ends.
    fn store(&mut self, address: usize, word: Word) -> Result<(), Refusal>
        ensures answer { store_answer result ≡ stored_answer (packed_row self.old.bytes.now) address }
        ensures after { packed_row self.new.bytes.now ≡ slice_set (packed_row self.old.bytes.now) address (meaning word) }
        ensures rest { drop (8 * packed_size self.new.bytes.now) self.new.bytes.now ≡ drop (8 * packed_size self.old.bytes.now) self.old.bytes.now }
        ensures lent { self.new.bytes.ghost_name ∷ [] ≡ self.old.bytes.ghost_name ∷ [] }
        ensures bytes { self.new.bytes.now ≡ packed_after self.old.bytes.now address (meaning word) }
    {
        if address >= (*self).size() {
            return Err(Refusal::NoCell);
        }
        write_group(self.bytes, address, &word);
        Ok(())
    }
}
