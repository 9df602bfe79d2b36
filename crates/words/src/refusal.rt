ghost use Rattle.std.specs.Prelude.{◌≡◌};
ghost use Rattle.words.specs.Refusals.{refusal_number};

// Why a call was refused. A refusal changes nothing.
#[derive(Clone, Copy, Debug, PartialEq, Eq)]
pub enum Refusal {
    // the address is at or beyond the memory's size
    NoCell = 1,
    // the register number is above 15
    NoRegister = 2,
    // a base, an end or a cursor above 65,536, or a constant that an operand has no room for
    OutOfRange = 3,
    // no permission or no locality has this code
    UnknownCode = 4,
    // the bytes pack no word
    MalformedGroup = 5,
    // the chart has fewer bytes than the memory has cells
    ShortChart = 6,
    // the program's input has a length that no sheet has
    MalformedInput = 7,
}

impl Refusal {
    // Its number in the table of refusals. A method and no From, since `u32::from` would not say which number of it.
    pub fn number(self) -> u32
        ensures { result ≡ refusal_number self }
    {
        self as u32
    }
}
