use super::packs::untouched;
use super::probe::{NO_WORD, integer, probe};
use memory::{JoinedMemory, Memory, PackedMemory, TableMemory, regroup};
use std::test::Fail;
use words::Word;

#[test]
fn a_pile_of_three_is_cut(rt: HostRuntime) -> Result<(), Fail> {
    let mut first = [NO_WORD; 40_000];
    let mut second = [NO_WORD; 20_000];
    let mut third = [0xFFu8; 80_000];
    let front = JoinedMemory::new(TableMemory::new(&mut first), TableMemory::new(&mut second));
    let mut pile = JoinedMemory::new(front, PackedMemory::new(&mut third));
    probe(&rt, &mut pile, 65_536)?;
    let other = regroup(pile);
    assert_eq!(rt; other.size(), 65_536);
    assert_eq!(rt; integer(&other, 39_999), Some(-7));
    assert_eq!(rt; integer(&other, 40_000), Some(-7));
    assert_eq!(rt; integer(&other, 60_000), Some(-7));
    assert_eq!(rt; integer(&other, 65_535), Some(-7));
    assert_eq!(rt; integer(&other, 65_533), Some(0));
    drop(other);
    assert_eq!(rt; first[39_999], 0xFFFF_FFF9);
    assert_eq!(rt; second[0], 0xFFFF_FFF9);
    assert_eq!(rt; second[1], NO_WORD);
    assert!(rt; untouched(&third[44_288..]));
    Ok(())
}

#[test]
fn piles_of_nothing_and_of_too_much(rt: HostRuntime) -> Result<(), Fail> {
    let mut full = [NO_WORD; 65_536];
    let mut cut = [NO_WORD; 2];
    let front = JoinedMemory::new(
        TableMemory::new(&mut cut[0..0]),
        TableMemory::new(&mut full),
    );
    let mut more = [0xFFu8; 15];
    let mut pile = JoinedMemory::new(front, PackedMemory::new(&mut more));
    probe(&rt, &mut pile, 65_536)?;
    let (front, last) = pile.into_parts();
    assert_eq!(rt; front.size(), 65_536);
    assert_eq!(rt; last.size(), 1);
    assert_eq!(rt; integer(&last, 0), Some(0));
    assert!(rt; untouched(last.back()));
    drop(front);
    assert!(rt; full[0] == 0xFFFF_FFF9 && cut[0] == NO_WORD);
    Ok(())
}
