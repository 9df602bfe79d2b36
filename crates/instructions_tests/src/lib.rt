// Tests of packing and unpacking, at the edges of the rules. They stand in a crate of their own, since a crate with tests is proved twice.
#![tactic(auto)]

#[cfg(test)]
mod tests {
    use instructions::{Instruction, Operand, pack, unpack};

    // Each instruction once, with the integer that it packs into.
    const PACKED: [(Instruction, i32); 20] = [
        (Instruction::Fail, 67108864),
        (Instruction::Halt, 134217728),
        (Instruction::Jmp { d: 15 }, 264241152),
        (
            Instruction::Jnz {
                d: 1,
                a: Operand::Constant(-1),
            },
            274724864,
        ),
        (
            Instruction::Move {
                d: 2,
                a: Operand::Register(0),
            },
            346030080,
        ),
        (Instruction::Load { d: 3, a: 15 }, 417363968),
        (
            Instruction::Store {
                d: 1,
                a: Operand::Constant(7),
            },
            473970688,
        ),
        (
            Instruction::Plus {
                d: 2,
                a: Operand::Register(3),
                b: Operand::Constant(1),
            },
            547362817,
        ),
        (
            Instruction::Minus {
                d: 4,
                a: Operand::Constant(-512),
                b: Operand::Constant(511),
            },
            621806079,
        ),
        (
            Instruction::Lt {
                d: 5,
                a: Operand::Constant(511),
                b: Operand::Register(15),
            },
            693107727,
        ),
        (
            Instruction::Lea {
                d: 6,
                a: Operand::Register(7),
            },
            765474816,
        ),
        (
            Instruction::Restrict {
                d: 7,
                a: Operand::Constant(29),
            },
            834725888,
        ),
        (
            Instruction::Subseg {
                d: 8,
                a: Operand::Register(9),
                b: Operand::Register(10),
            },
            908086282,
        ),
        (
            Instruction::IsPtr {
                d: 9,
                a: Operand::Register(1),
            },
            979372032,
        ),
        (Instruction::GetP { d: 10, a: 2 }, 1050677248),
        (Instruction::GetL { d: 11, a: 3 }, 1121982464),
        (Instruction::GetB { d: 12, a: 4 }, 1193287680),
        (Instruction::GetE { d: 13, a: 5 }, 1264592896),
        (Instruction::GetA { d: 14, a: 6 }, 1335898112),
        (
            Instruction::Quot {
                d: 15,
                a: Operand::Constant(-7),
                b: Operand::Constant(2),
            },
            1407174658,
        ),
    ];

    // Instructions that can't be packed, with the number of the refusal.
    const REFUSED: [(Instruction, u32); 10] = [
        (Instruction::Jmp { d: 16 }, 2),
        (Instruction::Load { d: 0, a: 16 }, 2),
        (
            Instruction::Move {
                d: 0,
                a: Operand::Register(4294967295),
            },
            2,
        ),
        (
            Instruction::Plus {
                d: 0,
                a: Operand::Constant(0),
                b: Operand::Register(16),
            },
            2,
        ),
        (
            Instruction::Move {
                d: 16,
                a: Operand::Constant(512),
            },
            2,
        ),
        (
            Instruction::Lt {
                d: 0,
                a: Operand::Constant(512),
                b: Operand::Register(16),
            },
            2,
        ),
        (
            Instruction::Store {
                d: 15,
                a: Operand::Constant(512),
            },
            3,
        ),
        (
            Instruction::Store {
                d: 15,
                a: Operand::Constant(-513),
            },
            3,
        ),
        (
            Instruction::Quot {
                d: 0,
                a: Operand::Register(15),
                b: Operand::Constant(-513),
            },
            3,
        ),
        (
            Instruction::Lea {
                d: 0,
                a: Operand::Constant(-2147483648),
            },
            3,
        ),
    ];

    // Integers that are no instruction.
    const NONE: [i32; 18] = [
        // opcode 0, alone and with register D
        0,
        0x0040_0000,
        // opcodes 21 and 31
        0x5400_0000,
        0x7c00_0000,
        0x7fff_ffff,
        // negative: bit 31 is set, also above a halt
        -1,
        -2147483648,
        -2013265920,
        // halt with D, with A, with B
        0x0840_0000,
        0x0800_0800,
        0x0800_0001,
        // jmp with the register 0 for A, move with B
        0x0c20_0000,
        0x1440_0001,
        // load and getb with a constant
        0x1800_0800,
        0x4400_0000,
        // a register 16: in load, and in plus for A and for B
        0x18e0_8000,
        0x2020_8000,
        0x2000_0410,
    ];

    // What packing gives: the integer, or else the refusal, by its number, which is what the rules give a refusal.
    fn packed(instruction: Instruction) -> Result<i32, u32> {
        pack(instruction).map_err(|refusal| refusal.number())
    }

    // The instruction of an integer, packed again.
    fn again(number: i32) -> Option<i32> {
        packed(unpack(number)?).ok()
    }

    #[test]
    fn packs(rt: HostRuntime) {
        for (instruction, number) in PACKED {
            assert_eq!(rt; packed(instruction), Ok(number));
            assert_eq!(rt; again(number), Some(number));
        }
        for (instruction, refusal) in REFUSED {
            assert_eq!(rt; packed(instruction), Err(refusal));
        }
        for number in NONE {
            assert!(rt; unpack(number).is_none());
        }
        assert!(rt;
            matches!(
                unpack(547362817),
                Some(Instruction::Plus {
                    d: 2,
                    a: Operand::Register(3),
                    b: Operand::Constant(1)
                })
            )
        );
    }
}
