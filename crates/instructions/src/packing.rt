ghost use Rattle.std.specs.Prelude.{◌≡◌, ◌<◌};
ghost use Rattle.instructions.specs.Packing.{packing, packing_parts, packing_of};

use super::instruction::Instruction;
use super::operand::LAST_REGISTER;
use super::parts::Parts;
use words::Refusal;

// The integer of an instruction. A register above 15 is refused before a constant outside −512 to 511.
// This is a function and no TryFrom, since `i32::try_from(instruction)` would not say that the integer is the packed form.
pub fn pack(instruction: Instruction) -> Result<i32, Refusal>
    ensures { packing result ≡ packing_of instruction }
{
    join(instruction.parts())
}

// The integer of an instruction's parts.
fn join(p: Parts) -> Result<i32, Refusal>
    requires { p.opcode < 32 }
    ensures { packing result ≡ packing_parts p }
{
    let Parts { opcode, d, a, b } = p;
    // first whether all of it fits, which looks at each operand once: with the two refusals in order before it, `pack` was slower
    if d <= LAST_REGISTER
        && let Some(a) = a.fitting_bits()
        && let Some(b) = b.fitting_bits()
    {
        let number = (opcode << 26) + (d << 22) + (a << 11) + b;
        return Ok(number.cast_signed());
    }
    if d > LAST_REGISTER || !a.register_fits() || !b.register_fits() {
        return Err(Refusal::NoRegister);
    }
    Err(Refusal::OutOfRange)
}
