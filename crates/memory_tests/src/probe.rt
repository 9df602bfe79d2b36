use memory::Memory;
use std::process::Abort;
use std::test::Fail;
use words::Word;

// A number that packs no word.
pub const NO_WORD: u64 = 0x0000_0001_0000_0000;

// Addresses at the edges of cells, of sizes and of the cut, ascending.
const ADDRESSES: [usize; 14] = [
    0,
    1,
    2,
    39_999,
    40_000,
    59_999,
    60_000,
    65_534,
    65_535,
    65_536,
    65_537,
    70_000,
    131_072,
    0xFFFF_FFFF_FFFF_FFFF,
];

// The integer in a cell: none for a capability or a refusal.
pub fn integer<M: Memory>(memory: &M, address: usize) -> Option<i32> {
    memory.load(address).ok()?.integer()
}

// The refusal of a load, by its number, which is what the rules give a refusal; none where it gives a word.
pub fn refusal<M: Memory>(memory: &M, address: usize) -> Option<u32> {
    memory.load(address).err().map(|refusal| refusal.number())
}

// Checks one address of a memory whose cells mean integer 0: below the size it takes a word and gives it back, from there on it refuses.
fn probe_at<M: Memory>(
    rt: &impl Abort,
    memory: &mut M,
    address: usize,
    size: usize,
) -> Result<(), Fail> {
    if address < size {
        assert_eq!(rt; integer(memory, address), Some(0));
        assert!(rt; memory.store(address, Word::Int(-7)).is_ok());
        assert_eq!(rt; integer(memory, address), Some(-7));
        Ok(())
    } else {
        assert!(rt; memory.store(address, Word::Int(-7)).is_err());
        assert_eq!(rt; refusal(memory, address), Some(1));
        Ok(())
    }
}

// Checks the size of a memory whose cells mean integer 0, and its cells at the edges.
pub fn probe<M: Memory>(rt: &impl Abort, memory: &mut M, size: usize) -> Result<(), Fail> {
    assert_eq!(rt; memory.size(), size);
    assert_eq!(rt; M::most_cells(), 65_536);
    for address in ADDRESSES {
        probe_at(rt, memory, address, size)?;
    }
    Ok(())
}
