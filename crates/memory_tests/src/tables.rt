use super::probe::{NO_WORD, integer, probe};
use memory::{TableMemory, store_then_load, store_twice};
use std::process::Abort;
use std::test::Fail;
use words::Word;

// How many numbers, and how many cells they make.
const SIZES: [(usize, usize); 5] = [
    (0, 0),
    (1, 1),
    (65_535, 65_535),
    (65_536, 65_536),
    (65_537, 65_536),
];

// Probes a table of so many numbers, none of which packs a word. Those past its cells stay.
fn probe_table(rt: &impl Abort, length: usize, cells: usize) -> Result<(), Fail> {
    let mut numbers = [NO_WORD; 65_538];
    probe(
        rt,
        &mut TableMemory::new(&mut numbers[0..length.min(65_538)]),
        cells,
    )?;
    assert_eq!(rt; numbers[cells.min(65_536)], NO_WORD);
    assert_eq!(rt; numbers[65_537], NO_WORD);
    Ok(())
}

#[test]
fn tables_have_a_cell_to_each_number(rt: HostRuntime) -> Result<(), Fail> {
    for (length, cells) in SIZES {
        probe_table(&rt, length, cells)?;
    }
    Ok(())
}

#[test]
fn a_store_packs_its_word_and_leaves_the_others(rt: HostRuntime) {
    let mut numbers = [5, NO_WORD, 7];
    let mut memory = TableMemory::new(&mut numbers);
    assert!(rt; store_then_load(&mut memory, 1, Word::Int(-1), 0).is_ok());
    assert_eq!(rt; integer(&memory, 0), Some(5));
    assert!(rt; store_twice(&mut memory, 2, Word::Int(1), Word::Int(2)).is_ok());
    assert!(rt; store_twice(&mut memory, 3, Word::Int(1), Word::Int(2)).is_err());
    let back = memory.back();
    assert!(rt; back.len() == 3);
    assert!(rt; back[0] == 5 && back[1] == 0xFFFF_FFFF && back[2] == 2);
}
