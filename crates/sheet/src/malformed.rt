ghost use Rattle.std.specs.Prelude.{◌++◌, Some, codes, decimal};
ghost use Rattle.words.specs.Refusals.{refusal_number};

use std::error::Error;
use std::fmt;
use words::Refusal;

// Why an input is no sheet, and the offset of the byte where that shows.
#[derive(Clone, Copy, Debug, PartialEq, Eq)]
pub struct Malformed {
    pub refusal: Refusal,
    pub offset: usize,
}

impl fmt::Display for Malformed {
    ghost output = { λ m. Some (codes "refused " ++ (decimal (refusal_number m.refusal) ++ (codes " at " ++ decimal m.offset))) };

    fn fmt<W: fmt::Write>(&self, f: &mut fmt::Formatter<W>) -> fmt::Result {
        let number = self.refusal.number();
        let offset = self.offset;
        write!(f, "refused {number} at {offset}")
    }
}

impl Error for Malformed {}
