use super::probe::{integer, probe};
use groups::pack;
use memory::{Memory, PackedMemory};
use std::process::Abort;
use std::test::Fail;
use words::Word;

// How many bytes, and how many cells they make.
const SIZES: [(usize, usize); 5] = [(0, 0), (7, 0), (8, 1), (9, 1), (524_301, 65_536)];

// Whether every byte is still the one that packs no word.
pub fn untouched(bytes: &[u8]) -> bool {
    bytes.iter().all(|byte| *byte == 0xFF)
}

// Probes a memory on the first so many bytes, no group of which packs a word. Those past its cells stay.
fn probe_bytes(rt: &impl Abort, bytes: &mut [u8], length: usize, cells: usize) -> Result<(), Fail> {
    assert!(rt; length <= bytes.len());
    assert!(rt; cells <= bytes.len() / 8);
    bytes.fill(0xFF);
    probe(rt, &mut PackedMemory::new(&mut bytes[0..length]), cells)?;
    assert!(rt; untouched(&bytes[8 * cells..]));
    Ok(())
}

fn probe_sizes(rt: &impl Abort, bytes: &mut [u8]) -> Result<(), Fail> {
    for (length, cells) in SIZES {
        probe_bytes(rt, bytes, length, cells)?;
    }
    Ok(())
}

#[test]
fn packed_memories_have_a_cell_to_each_full_group(rt: HostRuntime) -> Result<(), Fail> {
    let mut bytes = [0u8; 524_301];
    probe_sizes(&rt, bytes.as_mut_slice())
}

#[test]
fn a_store_writes_the_eight_bytes_of_its_cell(rt: HostRuntime) {
    let mut bytes = [0xFFu8; 20];
    let mut memory = PackedMemory::new(&mut bytes);
    assert!(rt; memory.store(1, Word::Int(-2)).is_ok());
    assert!(rt; memory.store(2, Word::Int(3)).is_err());
    assert_eq!(rt; integer(&memory, 0), Some(0));
    let back = memory.back();
    assert!(rt; back.len() == 20);
    assert!(rt; untouched(&back[0..8]) && untouched(&back[16..]));
    assert!(rt; &back[8..16] == &pack(&Word::Int(-2))[0..8]);
}
