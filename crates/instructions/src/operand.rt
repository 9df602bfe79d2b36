ghost use Rattle.std.specs.Prelude.{◌≡◌, ℕ, ◌^◌, ◌<◌, ◌&&◌, true, cond, Some, None};
ghost use Rattle.instructions.specs.Operands.{register_fits, constant_fits, operand_bits, operand_at};

use super::instruction::Operand;
use words::REGISTERS;

// The flag of an operand's eleven bits, set for a register.
pub(crate) const FLAG: u32 = 0x400;

// The largest number of a register.
pub(crate) const LAST_REGISTER: u32 = REGISTERS as u32 - 1;

// `to_bits` and `from_bits` are no From and TryFrom: not every operand has bits, a number of eleven bits has no type of its own, and
// `u32::from(operand)` would not say that bits are meant.
impl Operand {
    // Whether it names a register that exists, or none.
    pub(crate) fn register_fits(self) -> bool
        ensures { result ≡ register_fits self }
    {
        match self {
            Operand::Register(number) => number <= LAST_REGISTER,
            Operand::Constant(_) => true,
        }
    }

    // Whether it is a constant that ten bits have room for, or none.
    pub(crate) fn constant_fits(self) -> bool
        ensures { result ≡ constant_fits self }
    {
        match self {
            Operand::Register(_) => true,
            Operand::Constant(value) => (-512..=511).contains(&value),
        }
    }

    // The eleven bits of one that fits.
    pub(crate) fn to_bits(self) -> u32
        requires register { register_fits self ≡ true }
        requires constant { constant_fits self ≡ true }
        ensures value { result ≡ operand_bits self }
        ensures small { result < 2 ^ 11 }
    {
        match self {
            Operand::Register(number) => FLAG + number,
            Operand::Constant(value) if value >= 0 => value.cast_unsigned(),
            Operand::Constant(value) => (value + 0x400).cast_unsigned(),
        }
    }

    // The eleven bits, if it fits. One match, each arm with its own check: with both checks asked in one condition `pack` was slower by a quarter.
    pub(crate) fn fitting_bits(self) -> Option<u32>
        ensures value { result ≡ cond (register_fits self && constant_fits self) (Some (operand_bits self)) None }
        ensures small { (bits : ℕ) → result ≡ Some bits → bits < 2 ^ 11 }
    {
        match self {
            Operand::Register(_) if self.register_fits() => Some(self.to_bits()),
            Operand::Constant(_) if self.constant_fits() => Some(self.to_bits()),
            _ => None,
        }
    }

    // The operand that eleven bits hold, if they hold one.
    pub(crate) fn from_bits(bits: u32) -> Option<Operand>
        ensures { result ≡ operand_at bits }
    {
        match bits {
            0..0x200 => Some(Operand::Constant(bits.cast_signed())),
            0x200..0x400 => Some(Operand::Constant(bits.cast_signed() - 0x400)),
            _ if bits - FLAG <= LAST_REGISTER => Some(Operand::Register(bits - FLAG)),
            _ => None,
        }
    }
}
