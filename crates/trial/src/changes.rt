ghost use Rattle.std.specs.Prelude.{◌≡◌, ◌/◌, length, Some};
ghost use Rattle.words.specs.Meaning.{meaning};
ghost use Rattle.words.specs.Word.{at};
ghost use Rattle.memory.specs.Packs.{packed_row};
ghost use Rattle.trial.specs.Texts.{cell_text};
ghost use Rattle.trial.specs.Changes.{Changed};

use super::report::Report;
use memory::load_packed;
use std::fmt;
use words::Word;

// A cell whose word after the run is another than before it, with the word after.
#[derive(Clone, Copy, Debug, PartialEq, Eq)]
pub struct ChangedCell {
    pub address: usize,
    pub word: Word,
}

// The word of a cell; integer 0 where there is no such cell.
fn word_at(bytes: &[u8], address: usize) -> Word
    ensures { meaning result ≡ at (packed_row bytes.now) address }
{
    load_packed(bytes, address).unwrap_or(Word::Int(0))
}

impl<'a, 'b> Report<'a, 'b> {
    // How many cells there are.
    pub fn size(&self) -> usize
        ensures { result ≡ length self.now.before.now / 8 }
    {
        self.before.len() / 8
    }

    // The cell at an address, if the run changed it.
    pub fn changed(&self, address: usize) -> Option<ChangedCell>
        ensures { Changed (packed_row self.now.before.now) (packed_row self.now.after.now) address result }
    {
        let before = word_at(self.before, address);
        let word = word_at(self.after, address);
        (before != word).then_some(ChangedCell { address, word })
    }
}

impl fmt::Display for ChangedCell {
    ghost output = { λ c. Some (cell_text c.address (meaning c.word)) };

    fn fmt<W: fmt::Write>(&self, f: &mut fmt::Formatter<W>) -> fmt::Result {
        let address = self.address;
        match self.word {
            Word::Int(value) => write!(f, "cell {address} int {value}"),
            Word::Cap(held) => {
                let permission = u32::from(held.permission());
                let locality = u32::from(held.locality());
                let base = held.base();
                let end = held.end();
                let cursor = held.cursor();
                write!(
                    f,
                    "cell {address} cap {permission} {locality} {base} {end} {cursor}"
                )
            }
        }
    }
}
