ghost use Rattle.words.specs.Meaning.{meaning};
ghost use Rattle.words.specs.Kinds.{HoldsInteger, HoldsCapability};

use super::capability::Capability;

// How many registers there are, and words in a hand.
pub const REGISTERS: usize = 16;

// What a cell or a register holds.
#[derive(Clone, Copy, Debug, PartialEq, Eq)]
pub enum Word {
    Int(i32),
    Cap(Capability),
}

impl Word {
    // The integer that it is, if it is one.
    pub fn integer(self) -> Option<i32>
        ensures { HoldsInteger (meaning self) result }
    {
        match self {
            Word::Int(value) => Some(value),
            Word::Cap(_) => None,
        }
    }

    // The capability that it is, if it is one.
    pub fn capability(self) -> Option<Capability>
        ensures { HoldsCapability (meaning self) result }
    {
        match self {
            Word::Int(_) => None,
            Word::Cap(held) => Some(held),
        }
    }
}
