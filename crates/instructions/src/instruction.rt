// What an instruction works on: the word in a register, or a constant that the instruction itself holds.
#[derive(Clone, Copy, Debug, PartialEq, Eq)]
pub enum Operand {
    Register(u32),
    Constant(i32),
}

// What one step does. `d` is the number of a register, mostly the one that is written; where `a` is a number, it is that of a register too.
#[derive(Clone, Copy, Debug, PartialEq, Eq)]
pub enum Instruction {
    Fail,
    Halt,
    Jmp { d: u32 },
    Jnz { d: u32, a: Operand },
    Move { d: u32, a: Operand },
    Load { d: u32, a: u32 },
    Store { d: u32, a: Operand },
    Plus { d: u32, a: Operand, b: Operand },
    Minus { d: u32, a: Operand, b: Operand },
    Lt { d: u32, a: Operand, b: Operand },
    Lea { d: u32, a: Operand },
    Restrict { d: u32, a: Operand },
    Subseg { d: u32, a: Operand, b: Operand },
    IsPtr { d: u32, a: Operand },
    GetP { d: u32, a: u32 },
    GetL { d: u32, a: u32 },
    GetB { d: u32, a: u32 },
    GetE { d: u32, a: u32 },
    GetA { d: u32, a: u32 },
    Quot { d: u32, a: Operand, b: Operand },
}
