ghost use Rattle.std.specs.Prelude.{◌≡◌};
ghost use Rattle.instructions.specs.Table.{form_of};
ghost use Rattle.instructions.specs.Forms.{well_formed, made, instruction_of};
ghost use Rattle.instructions.specs.Packing.{unpacked, Unpacks};

use super::fields::Fields;
use super::instruction::{Instruction, Operand};
use super::operand::FLAG;
use super::parts::Parts;

// The instruction that packs into an integer, if one does: none is no error, and so no TryFrom.
pub fn unpack(number: i32) -> Option<Instruction>
    ensures value { result ≡ unpacked number }
    ensures exactly { Unpacks number result }
{
    let number = u32::try_from(number).ok()?;
    decode(Fields::from(number))
}

// The instruction that the fields make, if they make one.
fn decode(f: Fields) -> Option<Instruction>
    ensures { result ≡ instruction_of f }
{
    if !well_formed(f) {
        return None;
    }
    let a = Operand::from_bits(f.a)?;
    let b = Operand::from_bits(f.b)?;
    Instruction::from_parts(Parts {
        opcode: f.opcode,
        d: f.d,
        a,
        b,
    })
}

// Whether the fields that the opcode doesn't use are zero, and A is a register where it has to be.
// `decode` could do without it, and keep an instruction only where its `parts` are those of the fields: tried, and slower (an `unpack` took 9 ns and not 7).
fn well_formed(f: Fields) -> bool
    ensures { result ≡ well_formed (form_of f.opcode) f }
{
    match f.opcode {
        1..=2 if f.d == 0 && f.a == 0 && f.b == 0 => true,
        3 if f.a == 0 && f.b == 0 => true,
        4..=5 | 7 | 11..=12 | 14 if f.b == 0 => true,
        6 | 15..=19 if f.a >= FLAG && f.b == 0 => true,
        8..=10 | 13 | 20 => true,
        _ => false,
    }
}
