ghost use Rattle.std.specs.Prelude.{◌≡◌};
ghost use Rattle.model.specs.Faults.{fault_number};

use words::Refusal;

// Why a step faults. A fault changes no register and no cell.
#[derive(Clone, Copy, Debug, PartialEq, Eq)]
pub enum Fault {
    // the pc is no capability that executes and covers its cursor
    NotExecutable,
    // the word at the pc is no instruction
    NoInstruction,
    // an integer stands where a capability must, or the other way round
    WrongKind,
    // the capability's permission does not allow it
    NotPermitted,
    // the capability does not cover its cursor
    NotCovered,
    // the memory has no such cell; with the refusal that it gave
    NoCell(Refusal),
    // a Local capability, and the permission to write does not extend to those
    LocalNotStorable,
    // the result has no room in a word, or an address lies outside 0 to 65,536
    OutOfRange,
    // the rights or bounds asked for are not below those there are
    NotBelow,
    // a division by 0
    ZeroDivisor,
    // the instruction `fail`
    OrderedFail,
    // the pc is no capability with a cursor below 65,536
    CannotAdvance,
    // no permission and locality have this number
    UnknownPair,
}

impl Fault {
    // Its number in the table of faults: a match, since an enum that holds a value can't have numbers for variants; and no From, as for refusals.
    pub fn number(self) -> u32
        ensures { result ≡ fault_number self }
    {
        match self {
            Fault::NotExecutable => 11,
            Fault::NoInstruction => 12,
            Fault::WrongKind => 13,
            Fault::NotPermitted => 14,
            Fault::NotCovered => 15,
            Fault::NoCell(_) => 16,
            Fault::LocalNotStorable => 17,
            Fault::OutOfRange => 18,
            Fault::NotBelow => 19,
            Fault::ZeroDivisor => 20,
            Fault::OrderedFail => 21,
            Fault::CannotAdvance => 22,
            Fault::UnknownPair => 23,
        }
    }
}
