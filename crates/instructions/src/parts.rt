ghost use Rattle.std.specs.Prelude.{◌≡◌, ◌<◌};
ghost use Rattle.instructions.specs.Table.{parts, parts_of, form_of};
ghost use Rattle.instructions.specs.Forms.{made};

use super::instruction::{Instruction, Operand};

// The parts of an instruction: its opcode, and what stands in D, A and B. In what it doesn't use stands register 0 or the constant 0. The opcode is the
// number that the format has: an enum of opcodes would name every instruction a second time.
#[derive(Clone, Copy, Debug, PartialEq, Eq)]
pub struct Parts {
    pub opcode: u32,
    pub d: u32,
    pub a: Operand,
    pub b: Operand,
}

// The operand whose bits are zero, which stands in a field that an instruction doesn't use.
const UNUSED: Operand = Operand::Constant(0);

impl Parts {
    fn new(opcode: u32, d: u32, a: Operand, b: Operand) -> Parts
        ensures { result ≡ parts opcode d a b }
    {
        Parts { opcode, d, a, b }
    }
}

impl Instruction {
    // The parts of this instruction.
    pub fn parts(self) -> Parts
        ensures value { result ≡ parts_of self }
        ensures small { result.opcode < 32 }
    {
        match self {
            Instruction::Fail => Parts::new(1, 0, UNUSED, UNUSED),
            Instruction::Halt => Parts::new(2, 0, UNUSED, UNUSED),
            Instruction::Jmp { d } => Parts::new(3, d, UNUSED, UNUSED),
            Instruction::Jnz { d, a } => Parts::new(4, d, a, UNUSED),
            Instruction::Move { d, a } => Parts::new(5, d, a, UNUSED),
            Instruction::Load { d, a } => Parts::new(6, d, Operand::Register(a), UNUSED),
            Instruction::Store { d, a } => Parts::new(7, d, a, UNUSED),
            Instruction::Plus { d, a, b } => Parts::new(8, d, a, b),
            Instruction::Minus { d, a, b } => Parts::new(9, d, a, b),
            Instruction::Lt { d, a, b } => Parts::new(10, d, a, b),
            Instruction::Lea { d, a } => Parts::new(11, d, a, UNUSED),
            Instruction::Restrict { d, a } => Parts::new(12, d, a, UNUSED),
            Instruction::Subseg { d, a, b } => Parts::new(13, d, a, b),
            Instruction::IsPtr { d, a } => Parts::new(14, d, a, UNUSED),
            Instruction::GetP { d, a } => Parts::new(15, d, Operand::Register(a), UNUSED),
            Instruction::GetL { d, a } => Parts::new(16, d, Operand::Register(a), UNUSED),
            Instruction::GetB { d, a } => Parts::new(17, d, Operand::Register(a), UNUSED),
            Instruction::GetE { d, a } => Parts::new(18, d, Operand::Register(a), UNUSED),
            Instruction::GetA { d, a } => Parts::new(19, d, Operand::Register(a), UNUSED),
            Instruction::Quot { d, a, b } => Parts::new(20, d, a, b),
        }
    }

    // The instruction with these parts, if there is one.
    pub fn from_parts(p: Parts) -> Option<Instruction>
        ensures { result ≡ made (form_of p.opcode) p.d p.a p.b }
    {
        let Parts { opcode, d, a, b } = p;
        match (opcode, a) {
            (1, _) => Some(Instruction::Fail),
            (2, _) => Some(Instruction::Halt),
            (3, _) => Some(Instruction::Jmp { d }),
            (4, _) => Some(Instruction::Jnz { d, a }),
            (5, _) => Some(Instruction::Move { d, a }),
            (6, Operand::Register(a)) => Some(Instruction::Load { d, a }),
            (7, _) => Some(Instruction::Store { d, a }),
            (8, _) => Some(Instruction::Plus { d, a, b }),
            (9, _) => Some(Instruction::Minus { d, a, b }),
            (10, _) => Some(Instruction::Lt { d, a, b }),
            (11, _) => Some(Instruction::Lea { d, a }),
            (12, _) => Some(Instruction::Restrict { d, a }),
            (13, _) => Some(Instruction::Subseg { d, a, b }),
            (14, _) => Some(Instruction::IsPtr { d, a }),
            (15, Operand::Register(a)) => Some(Instruction::GetP { d, a }),
            (16, Operand::Register(a)) => Some(Instruction::GetL { d, a }),
            (17, Operand::Register(a)) => Some(Instruction::GetB { d, a }),
            (18, Operand::Register(a)) => Some(Instruction::GetE { d, a }),
            (19, Operand::Register(a)) => Some(Instruction::GetA { d, a }),
            (20, _) => Some(Instruction::Quot { d, a, b }),
            _ => None,
        }
    }
}
