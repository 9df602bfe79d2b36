use groups::{Hand, decode, pack, plain_word, unpack};
use words::Word;

// A group as a number, and whether it packs a word.
const GROUPS: [(u64, bool); 16] = [
    (0, true),
    (0x0000_0000_FFFF_FFFF, true),
    (0x0000_0000_8000_0000, true),
    (0x0000_0001_0000_0000, false),
    (0x4000_0000_0000_0000, false),
    (0x8000_0000_0000_0000, true),
    (0xA000_0000_0180_0000, true),
    (0x9200_0200_0180_0080, true),
    (0xC000_0000_0000_0000, false),
    (0x8400_0000_0000_0000, false),
    (0x8100_0000_0000_0000, true),
    (0x8100_0100_0000_0000, false),
    (0x8000_0080_0000_0000, true),
    (0x8000_0080_0080_0000, false),
    (0x8000_0000_0000_0001, false),
    (0xFFFF_FFFF_FFFF_FFFF, false),
];

// Whether the bytes of a number unpack, and then pack into the same bytes.
fn comes_back(number: u64) -> bool {
    let bytes = number.to_be_bytes();
    unpack(&bytes).is_ok_and(|word| pack(&word) == bytes)
}

#[test]
fn groups_come_back_or_are_refused(rt: HostRuntime) {
    for (number, packs) in GROUPS {
        assert_eq!(rt; comes_back(number), packs);
        assert_eq!(rt; decode(number).is_some(), packs);
        assert!(rt; packs || plain_word(number) == Word::Int(0));
    }
}

#[test]
fn only_eight_bytes_unpack(rt: HostRuntime) {
    let bytes = [0u8; 12];
    for length in 0..13usize {
        assert_eq!(rt; unpack(&bytes[0..length]).is_ok(), length == 8);
    }
}

#[test]
fn a_hand_has_sixteen_words(rt: HostRuntime) {
    let mut hand = Hand::new();
    for register in 0..20usize {
        assert_eq!(rt; hand.set(register, &Word::Int(-7)).is_ok(), register < 16);
        assert_eq!(rt; hand.word(register).is_ok(), register < 16);
    }
    assert_eq!(rt; hand.numbers[15], 0x0000_0000_FFFF_FFF9);
}
