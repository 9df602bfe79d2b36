ghost use Rattle.std.specs.Prelude.{◌≡◌};
ghost use Rattle.instructions.specs.Packing.{fields_of};

// The four fields of an instruction's integer, as numbers: the opcode, the number of register D, and the eleven bits of each operand.
#[derive(Clone, Copy, Debug, PartialEq, Eq)]
pub struct Fields {
    pub opcode: u32,
    pub d: u32,
    pub a: u32,
    pub b: u32,
}

// The fields of a number.
impl From<u32> for Fields {
    ghost from_gives = { λ number fields. fields ≡ fields_of number };

    fn from(number: u32) -> Fields {
        Fields {
            opcode: number >> 26,
            d: (number >> 22) % 0x10,
            a: (number >> 11) % 0x800,
            b: number % 0x800,
        }
    }
}
