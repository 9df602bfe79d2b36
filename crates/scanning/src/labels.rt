ghost use Rattle.std.specs.Prelude.{◌≡◌};
ghost use Rattle.notation.specs.Scanning.{lines};
ghost use Rattle.notation.specs.Labels.{label_of, unlabelled, address_after, has_label, defined, value_in};
ghost use Rattle.scanning.specs.Definitions.{given_bytes, definition_given};

use super::lines::{Lines, first_word};
use super::numerals::{integer, number, register};
use sheet::MOST_CELLS;

// The address after the last cell that a sheet can have.
const END: u32 = MOST_CELLS as u32;

// Where a label is defined: the number of the line, counted from 1, and the address of the next cell.
#[derive(Clone, Copy, Debug, PartialEq, Eq)]
pub struct Definition {
    pub line: usize,
    pub address: u32,
}

// The label of a line, if it has one.
pub fn label(line: &[u8]) -> Option<&[u8]>
    ensures { given_bytes result ≡ label_of line.now }
{
    first_word(line).word.strip_suffix(b":")
}

// What follows the label of a line; the line where it has none.
pub fn unlabelled(line: &[u8]) -> &[u8]
    ensures { result.now ≡ unlabelled line.now }
{
    let first = first_word(line);
    if first.word.ends_with(b":") {
        first.rest
    } else {
        line
    }
}

// The address after a line that begins at an address.
fn address_after(line: &[u8], address: u32) -> u32
    ensures { result ≡ address_after line.now address }
{
    let first = first_word(unlabelled(line));
    if first.word.is_empty()
        || b"budget".as_slice() == first.word
        || register(first.word).is_some()
    {
        return address;
    }
    if b"at".as_slice() == first.word {
        return number(first_word(first.rest).word)
            .filter(|further| *further <= END)
            .unwrap_or(address);
    }
    if address < END { address + 1 } else { address }
}

// Whether a line has the label.
fn has_label(line: &[u8], name: &[u8]) -> bool
    ensures { result ≡ has_label (label_of line.now) name.now }
{
    label(line).is_some_and(|label| label == name)
}

// The first line of a text that defines a label.
pub fn find_label(text: &[u8], name: &[u8]) -> Option<Definition>
    ensures { definition_given result ≡ defined (lines text.now) name.now }
{
    let mut address = 0;
    for (passed, line) in Lines(text).enumerate() {
        if has_label(line, name) {
            return Some(Definition {
                line: passed + 1,
                address,
            });
        }
        address = address_after(line, address);
    }
    None
}

// What a word says where a number may stand: an integer, or the address of a label.
pub fn value(text: &[u8], word: &[u8]) -> Option<i64>
    ensures { result ≡ value_in (lines text.now) word.now }
{
    integer(word).or_else(|| {
        find_label(text, word).map(|definition| i64::from(definition.address))
    })
}
