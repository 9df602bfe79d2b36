use groups::{Hand, encode};
use memory::TableMemory;
use std::process::Abort;
use std::test::Fail;
use survey::{Counts, survey};
use words::Permission::{self, E, O, RO, RW, RWL, RWLX, RWX, RX};
use words::{Capability, Locality, Refusal, Word};

// A capability of a picture: its permission, its base and its end.
pub type Part = (Permission, u32, u32);

// What covers no cell, and so is nothing to a survey.
const NIL: Part = (O, 0, 0);

// What registers 1 and 15 of a hand hold, and what five cells hold. Then the marks, and how many cells are marked at all and how many 2.
type Picture = ([Part; 2], [Part; 5], [u8; 5], (usize, usize));

const PICTURES: [Picture; 14] = [
    // an empty hand
    (
        [NIL, NIL],
        [(RW, 0, 5), (RW, 0, 5), NIL, NIL, NIL],
        [0, 0, 0, 0, 0],
        (0, 0),
    ),
    // the end is left out
    (
        [(RO, 1, 3), NIL],
        [NIL, NIL, NIL, NIL, NIL],
        [0, 1, 1, 0, 0],
        (2, 0),
    ),
    (
        [NIL, (RWX, 4, 5)],
        [NIL, NIL, NIL, NIL, NIL],
        [0, 0, 0, 0, 2],
        (1, 1),
    ),
    // a base at or above the end
    (
        [(RW, 4, 2), (RW, 3, 3)],
        [NIL, NIL, NIL, NIL, NIL],
        [0, 0, 0, 0, 0],
        (0, 0),
    ),
    // an end past the size, and all of it past
    (
        [(RW, 3, 65536), (RW, 5, 65536)],
        [NIL, NIL, NIL, NIL, NIL],
        [0, 0, 0, 2, 2],
        (2, 2),
    ),
    // O covers nothing, in the hand and in a cell
    (
        [(O, 0, 5), NIL],
        [(RW, 0, 5), (RW, 0, 5), NIL, NIL, NIL],
        [0, 0, 0, 0, 0],
        (0, 0),
    ),
    (
        [(RO, 0, 1), NIL],
        [(O, 0, 5), (RW, 0, 5), NIL, NIL, NIL],
        [1, 0, 0, 0, 0],
        (1, 0),
    ),
    // E covers, and what it covers is held
    (
        [(E, 0, 2), NIL],
        [NIL, (RW, 4, 5), NIL, NIL, NIL],
        [1, 1, 0, 0, 2],
        (3, 1),
    ),
    // a cell that covers itself
    (
        [(RO, 2, 3), NIL],
        [NIL, NIL, (RW, 2, 3), NIL, NIL],
        [0, 0, 2, 0, 0],
        (1, 1),
    ),
    // a capability in a cell that nothing held covers
    (
        [(RW, 0, 1), NIL],
        [NIL, (RW, 0, 5), NIL, NIL, NIL],
        [2, 0, 0, 0, 0],
        (1, 1),
    ),
    // chains up and down
    (
        [(RO, 0, 1), NIL],
        [(RX, 1, 2), (E, 2, 3), (RWL, 3, 4), (RWLX, 4, 5), NIL],
        [1, 1, 1, 2, 2],
        (5, 2),
    ),
    (
        [(RW, 4, 5), NIL],
        [NIL, (RO, 0, 1), (RO, 1, 2), (RO, 2, 3), (RO, 3, 4)],
        [1, 1, 1, 1, 2],
        (5, 1),
    ),
    // reading does not lower what writing marked, in either order
    (
        [(RW, 1, 3), (RO, 0, 5)],
        [NIL, NIL, NIL, NIL, NIL],
        [1, 2, 2, 1, 1],
        (5, 2),
    ),
    (
        [(RO, 0, 5), (RW, 1, 3)],
        [NIL, NIL, NIL, NIL, NIL],
        [1, 2, 2, 1, 1],
        (5, 2),
    ),
];

fn word((permission, base, end): Part) -> Word {
    Capability::new(permission, Locality::Global, base, end, 0).map_or(Word::Int(0), Word::Cap)
}

pub fn number(part: Part) -> u64 {
    encode(&word(part))
}

pub fn hand(first: Part, last: Part) -> Hand {
    let mut hand = Hand::new();
    let _ = hand.set(1, &word(first));
    let _ = hand.set(15, &word(last));
    hand
}

// Surveys a picture on a chart that has two bytes more than there are cells. A refusal fails by its number, which is what the rules give it.
fn check_picture(
    rt: &impl Abort,
    (held, cells, marks, (marked, writable)): Picture,
) -> Result<(), Fail> {
    let mut numbers = cells.map(number);
    let mut chart = [9; 7];
    let answer = survey(
        &TableMemory::new(&mut numbers),
        &hand(held[0], held[1]),
        &mut chart,
    )
    .map_err(Refusal::number)?;
    assert_eq!(rt; answer, Counts { marked, writable });
    assert!(rt; &chart[0..5] == marks.as_slice());
    assert!(rt; chart[5] == 9 && chart[6] == 9);
    Ok(())
}

#[test]
fn cells_are_marked_by_chains_of_held_capabilities(rt: HostRuntime) -> Result<(), Fail> {
    for picture in PICTURES {
        check_picture(&rt, picture)?;
    }
    Ok(())
}
