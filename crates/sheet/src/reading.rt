ghost use Rattle.std.specs.Prelude.{◌≡◌, ℕ, ◌+◌, ◌-◌, ◌*◌, ◌/◌, ◌<◌, ◌≤◌, length};
ghost use Rattle.sheet.specs.Sheets.{group_count, sheet_length, Reads, ReadsGroup, ReadsHand, ReadsCells};

use super::malformed::Malformed;
use groups::{Hand, unpack};
use words::{REGISTERS, Refusal, Word};

// The bytes of the budget.
const BUDGET: usize = 4;

// The bytes of a word's group.
const GROUP: usize = 8;

// The most cells that a sheet has.
pub const MOST_CELLS: usize = 2048;

// The bytes before the first cell's group: the budget, and the hand's groups.
const FRONT: usize = BUDGET + GROUP * REGISTERS;

// The most bytes that a sheet has.
pub const LONGEST: usize = FRONT + GROUP * MOST_CELLS;

// What a well-formed input says: how many steps a run may make, the hand that a visit is opened with, and the groups of the words that are placed from
// cell 0 on.
#[derive(Drop)]
pub struct Sheet<'a> {
    pub budget: u32,
    pub hand: Hand,
    pub cells: &'a [u8],
}

fn is_sheet_length(length: usize) -> bool
    ensures { result ≡ sheet_length length }
{
    FRONT <= length && length <= LONGEST && (length - BUDGET) % GROUP == 0
}

// The word of a group, counted from the hand's first, or the refusal of one that packs none.
fn read_group(bytes: &[u8], group: usize) -> Result<Word, Malformed>
    requires { group < group_count bytes.now }
    ensures { ReadsGroup bytes.now group result }
{
    // computed, and not left to `chunks_exact`: the offset is a part of the refusal
    let offset = BUDGET + GROUP * group;
    unpack(&bytes[offset..offset + GROUP]).map_err(|refusal| Malformed { refusal, offset })
}

// The hand's words, or the first of its groups that packs none.
fn read_hand(bytes: &[u8]) -> Result<Hand, Malformed>
    requires { FRONT ≤ length bytes.now }
    ensures { ReadsHand bytes.now result }
{
    let mut hand = Hand::new();
    for register in 0..REGISTERS {
        let word = read_group(bytes, register)?;
        // not refused, since there is such a register
        let _ = hand.set(register, &word);
    }
    Ok(hand)
}

// Whether every cell's group packs a word, or the first that does not.
fn read_cells(bytes: &[u8]) -> Result<(), Malformed>
    requires { FRONT ≤ length bytes.now }
    ensures { ReadsCells bytes.now result }
{
    for group in REGISTERS..(bytes.len() - BUDGET) / GROUP {
        read_group(bytes, group)?;
    }
    Ok(())
}

// The sheet in an input, or why it is none: its length is checked first, then each group from the front.
pub fn read_sheet(bytes: &[u8]) -> Result<Sheet<'_>, Malformed>
    ensures { Reads bytes.now result }
{
    if !is_sheet_length(bytes.len()) {
        return Err(Malformed {
            refusal: Refusal::MalformedInput,
            offset: 0,
        });
    }
    let hand = read_hand(bytes)?;
    read_cells(bytes)?;
    let budget = u32::from_be_bytes(*bytes.first_chunk().unwrap());
    Ok(Sheet {
        budget,
        hand,
        cells: &bytes[FRONT..],
    })
}
