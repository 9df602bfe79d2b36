// Each fault and each instruction at its edges, as one table.
use groups::{Hand, encode};
use machine::{Machine, Outcome, Registers};
use memory::TableMemory;
use model::{Fault, Status};
use words::Refusal;

// Plain numbers for registers 0 to 3 and for four cells; what a run with the budget comes to; and the word that a register then has.
struct Case {
    registers: [u64; 4],
    cells: [u64; 4],
    budget: u32,
    outcome: Outcome,
    register: usize,
    word: u64,
}

const CASES: [Case; 89] = [
    // the pc holds an integer
    Case {
        registers: [5, 0, 0, 0],
        cells: [0x8000000, 0, 0, 0],
        budget: 9,
        outcome: Outcome {
            status: Status::Failed {
                cause: Fault::NotExecutable,
                place: None,
            },
            steps: 1,
        },
        register: 0,
        word: 5,
    },
    // the pc does not execute
    Case {
        registers: [0x9000000002000000, 0, 0, 0],
        cells: [0x8000000, 0, 0, 0],
        budget: 9,
        outcome: Outcome {
            status: Status::Failed {
                cause: Fault::NotExecutable,
                place: Some(0),
            },
            steps: 1,
        },
        register: 1,
        word: 0,
    },
    // the pc is E
    Case {
        registers: [0xA800000002000000, 0, 0, 0],
        cells: [0x8000000, 0, 0, 0],
        budget: 9,
        outcome: Outcome {
            status: Status::Failed {
                cause: Fault::NotExecutable,
                place: Some(0),
            },
            steps: 1,
        },
        register: 1,
        word: 0,
    },
    // the pc is at its end
    Case {
        registers: [0xA000000000800040, 0, 0, 0],
        cells: [0x8000000, 0, 0, 0],
        budget: 9,
        outcome: Outcome {
            status: Status::Failed {
                cause: Fault::NotExecutable,
                place: Some(1),
            },
            steps: 1,
        },
        register: 1,
        word: 0,
    },
    // no cell at the pc
    Case {
        registers: [0xA000000004800100, 0, 0, 0],
        cells: [0, 0, 0, 0],
        budget: 9,
        outcome: Outcome {
            status: Status::Failed {
                cause: Fault::NoCell(Refusal::NoCell),
                place: Some(4),
            },
            steps: 1,
        },
        register: 1,
        word: 0,
    },
    // 0 is no instruction
    Case {
        registers: [0xA000000002000000, 0, 0, 0],
        cells: [0, 0, 0, 0],
        budget: 9,
        outcome: Outcome {
            status: Status::Failed {
                cause: Fault::NoInstruction,
                place: Some(0),
            },
            steps: 1,
        },
        register: 1,
        word: 0,
    },
    // a capability is no instruction
    Case {
        registers: [0xA000000002000000, 0, 0, 0],
        cells: [0xA000000002000000, 0, 0, 0],
        budget: 9,
        outcome: Outcome {
            status: Status::Failed {
                cause: Fault::NoInstruction,
                place: Some(0),
            },
            steps: 1,
        },
        register: 1,
        word: 0,
    },
    // an unused field
    Case {
        registers: [0xA000000002000000, 0, 0, 0],
        cells: [0x8400000, 0, 0, 0],
        budget: 9,
        outcome: Outcome {
            status: Status::Failed {
                cause: Fault::NoInstruction,
                place: Some(0),
            },
            steps: 1,
        },
        register: 1,
        word: 0,
    },
    // load through an integer
    Case {
        registers: [0xA000000002000000, 5, 0, 0],
        cells: [0x18A00800, 0, 0, 0],
        budget: 9,
        outcome: Outcome {
            status: Status::Failed {
                cause: Fault::WrongKind,
                place: Some(0),
            },
            steps: 1,
        },
        register: 1,
        word: 5,
    },
    // plus of a capability
    Case {
        registers: [0xA000000002000000, 0xA000000002000000, 0, 0],
        cells: [0x20A00801, 0, 0, 0],
        budget: 9,
        outcome: Outcome {
            status: Status::Failed {
                cause: Fault::WrongKind,
                place: Some(0),
            },
            steps: 1,
        },
        register: 1,
        word: 0xA000000002000000,
    },
    // getp of an integer
    Case {
        registers: [0xA000000002000000, 5, 0, 0],
        cells: [0x3CA00800, 0, 0, 0],
        budget: 9,
        outcome: Outcome {
            status: Status::Failed {
                cause: Fault::WrongKind,
                place: Some(0),
            },
            steps: 1,
        },
        register: 1,
        word: 5,
    },
    // lea by a capability
    Case {
        registers: [
            0xA000000002000000,
            0xA800000000800000,
            0xA000000002000000,
            0,
        ],
        cells: [0x2C601000, 0, 0, 0],
        budget: 9,
        outcome: Outcome {
            status: Status::Failed {
                cause: Fault::WrongKind,
                place: Some(0),
            },
            steps: 1,
        },
        register: 1,
        word: 0xA800000000800000,
    },
    // load through O
    Case {
        registers: [0xA000000002000000, 0x8000000002000000, 0, 0],
        cells: [0x18A00800, 0, 0, 0],
        budget: 9,
        outcome: Outcome {
            status: Status::Failed {
                cause: Fault::NotPermitted,
                place: Some(0),
            },
            steps: 1,
        },
        register: 1,
        word: 0x8000000002000000,
    },
    // load through E
    Case {
        registers: [0xA000000002000000, 0xA800000002000000, 0, 0],
        cells: [0x18A00800, 0, 0, 0],
        budget: 9,
        outcome: Outcome {
            status: Status::Failed {
                cause: Fault::NotPermitted,
                place: Some(0),
            },
            steps: 1,
        },
        register: 1,
        word: 0xA800000002000000,
    },
    // store through RX
    Case {
        registers: [0xA000000002000000, 0xA000000002000000, 0, 0],
        cells: [0x1C400800, 0, 0, 0],
        budget: 9,
        outcome: Outcome {
            status: Status::Failed {
                cause: Fault::NotPermitted,
                place: Some(0),
            },
            steps: 1,
        },
        register: 1,
        word: 0xA000000002000000,
    },
    // lea of E
    Case {
        registers: [0xA000000002000000, 0xA800000002000000, 0, 0],
        cells: [0x2C400800, 0, 0, 0],
        budget: 9,
        outcome: Outcome {
            status: Status::Failed {
                cause: Fault::NotPermitted,
                place: Some(0),
            },
            steps: 1,
        },
        register: 1,
        word: 0xA800000002000000,
    },
    // subseg of E
    Case {
        registers: [0xA000000002000000, 0xA800000002000000, 0, 0],
        cells: [0x34400001, 0, 0, 0],
        budget: 9,
        outcome: Outcome {
            status: Status::Failed {
                cause: Fault::NotPermitted,
                place: Some(0),
            },
            steps: 1,
        },
        register: 1,
        word: 0xA800000002000000,
    },
    // load at the end
    Case {
        registers: [0xA000000002000000, 0x8800000001000080, 0, 0],
        cells: [0x18A00800, 0, 0, 0],
        budget: 9,
        outcome: Outcome {
            status: Status::Failed {
                cause: Fault::NotCovered,
                place: Some(0),
            },
            steps: 1,
        },
        register: 1,
        word: 0x8800000001000080,
    },
    // load below the base
    Case {
        registers: [0xA000000002000000, 0x8800020001800040, 0, 0],
        cells: [0x18A00800, 0, 0, 0],
        budget: 9,
        outcome: Outcome {
            status: Status::Failed {
                cause: Fault::NotCovered,
                place: Some(0),
            },
            steps: 1,
        },
        register: 1,
        word: 0x8800020001800040,
    },
    // store with base above end
    Case {
        registers: [0xA000000002000000, 0x9000030000800080, 0, 0],
        cells: [0x1C400800, 0, 0, 0],
        budget: 9,
        outcome: Outcome {
            status: Status::Failed {
                cause: Fault::NotCovered,
                place: Some(0),
            },
            steps: 1,
        },
        register: 1,
        word: 0x9000030000800080,
    },
    // load beyond the size
    Case {
        registers: [0xA000000002000000, 0x8800000004800100, 0, 0],
        cells: [0x18A00800, 0, 0, 0],
        budget: 9,
        outcome: Outcome {
            status: Status::Failed {
                cause: Fault::NoCell(Refusal::NoCell),
                place: Some(0),
            },
            steps: 1,
        },
        register: 1,
        word: 0x8800000004800100,
    },
    // store beyond the size
    Case {
        registers: [0xA000000002000000, 0x9000000004800100, 0, 0],
        cells: [0x1C400800, 0, 0, 0],
        budget: 9,
        outcome: Outcome {
            status: Status::Failed {
                cause: Fault::NoCell(Refusal::NoCell),
                place: Some(0),
            },
            steps: 1,
        },
        register: 1,
        word: 0x9000000004800100,
    },
    // a Local word through RW
    Case {
        registers: [
            0xA000000002000000,
            0x90000000020000C0,
            0x8200000000000000,
            0,
        ],
        cells: [0x1C601000, 0, 0, 0],
        budget: 9,
        outcome: Outcome {
            status: Status::Failed {
                cause: Fault::LocalNotStorable,
                place: Some(0),
            },
            steps: 1,
        },
        register: 1,
        word: 0x90000000020000C0,
    },
    // Local before the missing cell
    Case {
        registers: [
            0xA000000002000000,
            0x9000000004800100,
            0x8200000000000000,
            0,
        ],
        cells: [0x1C601000, 0, 0, 0],
        budget: 9,
        outcome: Outcome {
            status: Status::Failed {
                cause: Fault::LocalNotStorable,
                place: Some(0),
            },
            steps: 1,
        },
        register: 1,
        word: 0x9000000004800100,
    },
    // plus beyond 32 bits
    Case {
        registers: [0xA000000002000000, 0x7FFFFFFF, 0, 0],
        cells: [0x20600801, 0, 0, 0],
        budget: 9,
        outcome: Outcome {
            status: Status::Failed {
                cause: Fault::OutOfRange,
                place: Some(0),
            },
            steps: 1,
        },
        register: 1,
        word: 0x7FFFFFFF,
    },
    // minus beyond 32 bits
    Case {
        registers: [0xA000000002000000, 0x80000000, 0, 0],
        cells: [0x24600801, 0, 0, 0],
        budget: 9,
        outcome: Outcome {
            status: Status::Failed {
                cause: Fault::OutOfRange,
                place: Some(0),
            },
            steps: 1,
        },
        register: 1,
        word: 0x80000000,
    },
    // quot of the lowest by -1
    Case {
        registers: [0xA000000002000000, 0x80000000, 0, 0],
        cells: [0x50600BFF, 0, 0, 0],
        budget: 9,
        outcome: Outcome {
            status: Status::Failed {
                cause: Fault::OutOfRange,
                place: Some(0),
            },
            steps: 1,
        },
        register: 1,
        word: 0x80000000,
    },
    // lea beyond 65536
    Case {
        registers: [0xA000000002000000, 0x8800000000BFFFC0, 0, 0],
        cells: [0x2C401000, 0, 0, 0],
        budget: 9,
        outcome: Outcome {
            status: Status::Failed {
                cause: Fault::OutOfRange,
                place: Some(0),
            },
            steps: 1,
        },
        register: 1,
        word: 0x8800000000BFFFC0,
    },
    // lea below 0
    Case {
        registers: [0xA000000002000000, 0x8800000000800000, 0, 0],
        cells: [0x2C5FF800, 0, 0, 0],
        budget: 9,
        outcome: Outcome {
            status: Status::Failed {
                cause: Fault::OutOfRange,
                place: Some(0),
            },
            steps: 1,
        },
        register: 1,
        word: 0x8800000000800000,
    },
    // subseg below 0
    Case {
        registers: [0xA000000002000000, 0x8800000000800000, 0, 0],
        cells: [0x345FF801, 0, 0, 0],
        budget: 9,
        outcome: Outcome {
            status: Status::Failed {
                cause: Fault::OutOfRange,
                place: Some(0),
            },
            steps: 1,
        },
        register: 1,
        word: 0x8800000000800000,
    },
    // subseg beyond 65536
    Case {
        registers: [0xA000000002000000, 0x8800008000000000, 65537, 0],
        cells: [0x34400402, 0, 0, 0],
        budget: 9,
        outcome: Outcome {
            status: Status::Failed {
                cause: Fault::OutOfRange,
                place: Some(0),
            },
            steps: 1,
        },
        register: 1,
        word: 0x8800008000000000,
    },
    // restrict to more
    Case {
        registers: [0xA000000002000000, 0x8800000000800000, 0, 0],
        cells: [0x30404000, 0, 0, 0],
        budget: 9,
        outcome: Outcome {
            status: Status::Failed {
                cause: Fault::NotBelow,
                place: Some(0),
            },
            steps: 1,
        },
        register: 1,
        word: 0x8800000000800000,
    },
    // restrict to Global
    Case {
        registers: [0xA000000002000000, 0x8A00000000800000, 0, 0],
        cells: [0x30402000, 0, 0, 0],
        budget: 9,
        outcome: Outcome {
            status: Status::Failed {
                cause: Fault::NotBelow,
                place: Some(0),
            },
            steps: 1,
        },
        register: 1,
        word: 0x8A00000000800000,
    },
    // subseg to more
    Case {
        registers: [0xA000000002000000, 0x8800010001000000, 0, 0],
        cells: [0x34400002, 0, 0, 0],
        budget: 9,
        outcome: Outcome {
            status: Status::Failed {
                cause: Fault::NotBelow,
                place: Some(0),
            },
            steps: 1,
        },
        register: 1,
        word: 0x8800010001000000,
    },
    // quot by 0
    Case {
        registers: [0xA000000002000000, 5, 0, 0],
        cells: [0x50600800, 0, 0, 0],
        budget: 9,
        outcome: Outcome {
            status: Status::Failed {
                cause: Fault::ZeroDivisor,
                place: Some(0),
            },
            steps: 1,
        },
        register: 1,
        word: 5,
    },
    // fail
    Case {
        registers: [0xA000000002000000, 0, 0, 0],
        cells: [0x4000000, 0, 0, 0],
        budget: 9,
        outcome: Outcome {
            status: Status::Failed {
                cause: Fault::OrderedFail,
                place: Some(0),
            },
            steps: 1,
        },
        register: 1,
        word: 0,
    },
    // an integer in the pc
    Case {
        registers: [0xA000000002000000, 0, 0, 0],
        cells: [0x14002800, 0, 0, 0],
        budget: 9,
        outcome: Outcome {
            status: Status::Failed {
                cause: Fault::CannotAdvance,
                place: Some(0),
            },
            steps: 1,
        },
        register: 0,
        word: 0xA000000002000000,
    },
    // a pc at 65536
    Case {
        registers: [0xA000000002000000, 0xA000000002400000, 0, 0],
        cells: [0x14200800, 0, 0, 0],
        budget: 9,
        outcome: Outcome {
            status: Status::Failed {
                cause: Fault::CannotAdvance,
                place: Some(0),
            },
            steps: 1,
        },
        register: 0,
        word: 0xA000000002000000,
    },
    // a pc that lea moves to 65536
    Case {
        registers: [0xA000000002000000, 65536, 0, 0],
        cells: [0x2C200800, 0, 0, 0],
        budget: 9,
        outcome: Outcome {
            status: Status::Failed {
                cause: Fault::CannotAdvance,
                place: Some(0),
            },
            steps: 1,
        },
        register: 0,
        word: 0xA000000002000000,
    },
    // a locality code of 2
    Case {
        registers: [0xA000000002000000, 0x9000000000800000, 0, 0],
        cells: [0x30401000, 0, 0, 0],
        budget: 9,
        outcome: Outcome {
            status: Status::Failed {
                cause: Fault::UnknownPair,
                place: Some(0),
            },
            steps: 1,
        },
        register: 1,
        word: 0x9000000000800000,
    },
    // a permission code of 8
    Case {
        registers: [0xA000000002000000, 0x9000000000800000, 0, 0],
        cells: [0x30410000, 0, 0, 0],
        budget: 9,
        outcome: Outcome {
            status: Status::Failed {
                cause: Fault::UnknownPair,
                place: Some(0),
            },
            steps: 1,
        },
        register: 1,
        word: 0x9000000000800000,
    },
    // a negative pair
    Case {
        registers: [0xA000000002000000, 0x9000000000800000, 0, 0],
        cells: [0x305FF800, 0, 0, 0],
        budget: 9,
        outcome: Outcome {
            status: Status::Failed {
                cause: Fault::UnknownPair,
                place: Some(0),
            },
            steps: 1,
        },
        register: 1,
        word: 0x9000000000800000,
    },
    // halt
    Case {
        registers: [0xA000000002000000, 0, 0, 0],
        cells: [0x8000000, 0, 0, 0],
        budget: 9,
        outcome: Outcome {
            status: Status::Halted,
            steps: 1,
        },
        register: 0,
        word: 0xA000000002000000,
    },
    // move
    Case {
        registers: [0xA000000002000000, 0x92000100010000C0, 0, 0],
        cells: [0x14A00800, 0, 0, 0],
        budget: 1,
        outcome: Outcome {
            status: Status::Running,
            steps: 1,
        },
        register: 2,
        word: 0x92000100010000C0,
    },
    // move of a constant
    Case {
        registers: [0xA000000002000000, 0, 0, 0],
        cells: [0x14900000, 0, 0, 0],
        budget: 1,
        outcome: Outcome {
            status: Status::Running,
            steps: 1,
        },
        register: 2,
        word: 0xFFFFFE00,
    },
    // move of the pc
    Case {
        registers: [0xA000000002000000, 0, 0, 0],
        cells: [0x14A00000, 0, 0, 0],
        budget: 1,
        outcome: Outcome {
            status: Status::Running,
            steps: 1,
        },
        register: 2,
        word: 0xA000000002000000,
    },
    // load
    Case {
        registers: [0xA000000002000000, 0x8800000000800000, 0, 0],
        cells: [0x18A00800, 0, 0, 0],
        budget: 1,
        outcome: Outcome {
            status: Status::Running,
            steps: 1,
        },
        register: 2,
        word: 0x18A00800,
    },
    // plus
    Case {
        registers: [0xA000000002000000, 2, 0, 0],
        cells: [0x20A00BFD, 0, 0, 0],
        budget: 1,
        outcome: Outcome {
            status: Status::Running,
            steps: 1,
        },
        register: 2,
        word: 0xFFFFFFFF,
    },
    // minus
    Case {
        registers: [0xA000000002000000, 0xFFFFFFFB, 0, 0],
        cells: [0x24801401, 0, 0, 0],
        budget: 1,
        outcome: Outcome {
            status: Status::Running,
            steps: 1,
        },
        register: 2,
        word: 7,
    },
    // lt of the lower
    Case {
        registers: [0xA000000002000000, 0, 0, 0],
        cells: [0x289FF800, 0, 0, 0],
        budget: 1,
        outcome: Outcome {
            status: Status::Running,
            steps: 1,
        },
        register: 2,
        word: 1,
    },
    // lt of equals
    Case {
        registers: [0xA000000002000000, 0, 0, 0],
        cells: [0x28801803, 0, 0, 0],
        budget: 1,
        outcome: Outcome {
            status: Status::Running,
            steps: 1,
        },
        register: 2,
        word: 0,
    },
    // 7 by 2
    Case {
        registers: [0xA000000002000000, 0, 0, 0],
        cells: [0x50803802, 0, 0, 0],
        budget: 1,
        outcome: Outcome {
            status: Status::Running,
            steps: 1,
        },
        register: 2,
        word: 4,
    },
    // -7 by 2
    Case {
        registers: [0xA000000002000000, 0, 0, 0],
        cells: [0x509FC802, 0, 0, 0],
        budget: 1,
        outcome: Outcome {
            status: Status::Running,
            steps: 1,
        },
        register: 2,
        word: 0xFFFFFFFC,
    },
    // 5 by 2
    Case {
        registers: [0xA000000002000000, 0, 0, 0],
        cells: [0x50802802, 0, 0, 0],
        budget: 1,
        outcome: Outcome {
            status: Status::Running,
            steps: 1,
        },
        register: 2,
        word: 3,
    },
    // -5 by 2
    Case {
        registers: [0xA000000002000000, 0, 0, 0],
        cells: [0x509FD802, 0, 0, 0],
        budget: 1,
        outcome: Outcome {
            status: Status::Running,
            steps: 1,
        },
        register: 2,
        word: 0xFFFFFFFD,
    },
    // 5 by -2
    Case {
        registers: [0xA000000002000000, 0, 0, 0],
        cells: [0x50802BFE, 0, 0, 0],
        budget: 1,
        outcome: Outcome {
            status: Status::Running,
            steps: 1,
        },
        register: 2,
        word: 0xFFFFFFFD,
    },
    // -5 by -2
    Case {
        registers: [0xA000000002000000, 0, 0, 0],
        cells: [0x509FDBFE, 0, 0, 0],
        budget: 1,
        outcome: Outcome {
            status: Status::Running,
            steps: 1,
        },
        register: 2,
        word: 3,
    },
    // 1 by 3
    Case {
        registers: [0xA000000002000000, 0, 0, 0],
        cells: [0x50800803, 0, 0, 0],
        budget: 1,
        outcome: Outcome {
            status: Status::Running,
            steps: 1,
        },
        register: 2,
        word: 0,
    },
    // 2 by 3
    Case {
        registers: [0xA000000002000000, 0, 0, 0],
        cells: [0x50801003, 0, 0, 0],
        budget: 1,
        outcome: Outcome {
            status: Status::Running,
            steps: 1,
        },
        register: 2,
        word: 1,
    },
    // -2 by 3
    Case {
        registers: [0xA000000002000000, 0, 0, 0],
        cells: [0x509FF003, 0, 0, 0],
        budget: 1,
        outcome: Outcome {
            status: Status::Running,
            steps: 1,
        },
        register: 2,
        word: 0xFFFFFFFF,
    },
    // 0 by -9
    Case {
        registers: [0xA000000002000000, 0, 0, 0],
        cells: [0x508003F7, 0, 0, 0],
        budget: 1,
        outcome: Outcome {
            status: Status::Running,
            steps: 1,
        },
        register: 2,
        word: 0,
    },
    // 511 by 1
    Case {
        registers: [0xA000000002000000, 0, 0, 0],
        cells: [0x508FF801, 0, 0, 0],
        budget: 1,
        outcome: Outcome {
            status: Status::Running,
            steps: 1,
        },
        register: 2,
        word: 511,
    },
    // the lowest by 1
    Case {
        registers: [0xA000000002000000, 0x80000000, 0, 0],
        cells: [0x50A00801, 0, 0, 0],
        budget: 1,
        outcome: Outcome {
            status: Status::Running,
            steps: 1,
        },
        register: 2,
        word: 0x80000000,
    },
    // lea to 65536
    Case {
        registers: [0xA000000002000000, 0x8200000000BFFFC0, 0, 0],
        cells: [0x2C400800, 0, 0, 0],
        budget: 1,
        outcome: Outcome {
            status: Status::Running,
            steps: 1,
        },
        register: 1,
        word: 0x8200000000C00000,
    },
    // lea of O down to 0
    Case {
        registers: [0xA000000002000000, 0x80000900008000C0, 0, 0],
        cells: [0x2C5FE800, 0, 0, 0],
        budget: 1,
        outcome: Outcome {
            status: Status::Running,
            steps: 1,
        },
        register: 1,
        word: 0x8000090000800000,
    },
    // restrict to E Local
    Case {
        registers: [0xA000000002000000, 0xA0000100010000C0, 0, 0],
        cells: [0x3040A800, 0, 0, 0],
        budget: 1,
        outcome: Outcome {
            status: Status::Running,
            steps: 1,
        },
        register: 1,
        word: 0xAA000100010000C0,
    },
    // restrict of E to O
    Case {
        registers: [0xA000000002000000, 0xA8000100010000C0, 0, 0],
        cells: [0x30400000, 0, 0, 0],
        budget: 1,
        outcome: Outcome {
            status: Status::Running,
            steps: 1,
        },
        register: 1,
        word: 0x80000100010000C0,
    },
    // subseg
    Case {
        registers: [0xA000000002000000, 0x9200010002000240, 0, 0],
        cells: [0x34401003, 0, 0, 0],
        budget: 1,
        outcome: Outcome {
            status: Status::Running,
            steps: 1,
        },
        register: 1,
        word: 0x9200020001800240,
    },
    // subseg with base above end
    Case {
        registers: [0xA000000002000000, 0x9200010002000240, 0, 0],
        cells: [0x34402001, 0, 0, 0],
        budget: 1,
        outcome: Outcome {
            status: Status::Running,
            steps: 1,
        },
        register: 1,
        word: 0x9200040000800240,
    },
    // isptr of a capability
    Case {
        registers: [0xA000000002000000, 0xA000000002000000, 0, 0],
        cells: [0x38A00800, 0, 0, 0],
        budget: 1,
        outcome: Outcome {
            status: Status::Running,
            steps: 1,
        },
        register: 2,
        word: 1,
    },
    // isptr of a constant
    Case {
        registers: [0xA000000002000000, 0, 0, 0],
        cells: [0x38804800, 0, 0, 0],
        budget: 1,
        outcome: Outcome {
            status: Status::Running,
            steps: 1,
        },
        register: 2,
        word: 0,
    },
    // getp
    Case {
        registers: [0xA000000002000000, 0xBA00030002800240, 0, 0],
        cells: [0x3CA00800, 0, 0, 0],
        budget: 1,
        outcome: Outcome {
            status: Status::Running,
            steps: 1,
        },
        register: 2,
        word: 7,
    },
    // getl
    Case {
        registers: [0xA000000002000000, 0xBA00030002800240, 0, 0],
        cells: [0x40A00800, 0, 0, 0],
        budget: 1,
        outcome: Outcome {
            status: Status::Running,
            steps: 1,
        },
        register: 2,
        word: 1,
    },
    // getb
    Case {
        registers: [0xA000000002000000, 0xBA00030002800240, 0, 0],
        cells: [0x44A00800, 0, 0, 0],
        budget: 1,
        outcome: Outcome {
            status: Status::Running,
            steps: 1,
        },
        register: 2,
        word: 3,
    },
    // gete
    Case {
        registers: [0xA000000002000000, 0xBA00030002800240, 0, 0],
        cells: [0x48A00800, 0, 0, 0],
        budget: 1,
        outcome: Outcome {
            status: Status::Running,
            steps: 1,
        },
        register: 2,
        word: 5,
    },
    // geta
    Case {
        registers: [0xA000000002000000, 0xBA00030002800240, 0, 0],
        cells: [0x4CA00800, 0, 0, 0],
        budget: 1,
        outcome: Outcome {
            status: Status::Running,
            steps: 1,
        },
        register: 2,
        word: 9,
    },
    // jmp
    Case {
        registers: [0xA000000002000000, 0xB200010001800080, 0, 0],
        cells: [0xC400000, 0, 0, 0],
        budget: 1,
        outcome: Outcome {
            status: Status::Running,
            steps: 1,
        },
        register: 0,
        word: 0xB200010001800080,
    },
    // jmp to E keeps Local
    Case {
        registers: [0xA000000002000000, 0xAA00010001800080, 0, 0],
        cells: [0xC400000, 0, 0, 0],
        budget: 1,
        outcome: Outcome {
            status: Status::Running,
            steps: 1,
        },
        register: 0,
        word: 0xA200010001800080,
    },
    // jmp to an integer
    Case {
        registers: [0xA000000002000000, 0xFFFFFFF7, 0, 0],
        cells: [0xC400000, 0, 0, 0],
        budget: 1,
        outcome: Outcome {
            status: Status::Running,
            steps: 1,
        },
        register: 0,
        word: 0xFFFFFFF7,
    },
    // jnz taken
    Case {
        registers: [0xA000000002000000, 0xA800010001800080, 0, 0],
        cells: [0x105FF800, 0, 0, 0],
        budget: 1,
        outcome: Outcome {
            status: Status::Running,
            steps: 1,
        },
        register: 0,
        word: 0xA000010001800080,
    },
    // jnz on a capability
    Case {
        registers: [0xA000000002000000, 0x8800010001800080, 0, 0],
        cells: [0x10600000, 0, 0, 0],
        budget: 1,
        outcome: Outcome {
            status: Status::Running,
            steps: 1,
        },
        register: 0,
        word: 0x8800010001800080,
    },
    // jnz not taken
    Case {
        registers: [0xA000000002000000, 0xA800010001800080, 0, 0],
        cells: [0x10400000, 0, 0, 0],
        budget: 1,
        outcome: Outcome {
            status: Status::Running,
            steps: 1,
        },
        register: 0,
        word: 0xA000000002000040,
    },
    // the pc advances
    Case {
        registers: [0xA000000002000000, 0, 0, 0],
        cells: [0x14800800, 0, 0, 0],
        budget: 1,
        outcome: Outcome {
            status: Status::Running,
            steps: 1,
        },
        register: 0,
        word: 0xA000000002000040,
    },
    // a moved E advances
    Case {
        registers: [0xA000000002000000, 0xA800010001800080, 0, 0],
        cells: [0x14200800, 0, 0, 0],
        budget: 1,
        outcome: Outcome {
            status: Status::Running,
            steps: 1,
        },
        register: 0,
        word: 0xA8000100018000C0,
    },
    // store and load
    Case {
        registers: [0xA000000002000000, 0x90000300020000C0, 0, 0],
        cells: [0x1C403800, 0x18A00800, 0x8000000, 0],
        budget: 9,
        outcome: Outcome {
            status: Status::Halted,
            steps: 3,
        },
        register: 2,
        word: 7,
    },
    // a Local word stored through RWL
    Case {
        registers: [
            0xA000000002000000,
            0x9A000300020000C0,
            0x8A00000000800000,
            0,
        ],
        cells: [0x1C601000, 0x18E00800, 0x8000000, 0],
        budget: 9,
        outcome: Outcome {
            status: Status::Halted,
            steps: 3,
        },
        register: 3,
        word: 0x8A00000000800000,
    },
    // the budget is spent
    Case {
        registers: [0xA000000002000000, 0, 0, 0],
        cells: [0xC000000, 0, 0, 0],
        budget: 5,
        outcome: Outcome {
            status: Status::Running,
            steps: 5,
        },
        register: 0,
        word: 0xA000000002000000,
    },
    // no budget
    Case {
        registers: [0xA000000002000000, 0, 0, 0],
        cells: [0x8000000, 0, 0, 0],
        budget: 0,
        outcome: Outcome {
            status: Status::Running,
            steps: 0,
        },
        register: 0,
        word: 0xA000000002000000,
    },
    // found out a step later
    Case {
        registers: [0xA000000002000000, 7, 0, 0],
        cells: [0xC400000, 0, 0, 0],
        budget: 9,
        outcome: Outcome {
            status: Status::Failed {
                cause: Fault::NotExecutable,
                place: None,
            },
            steps: 2,
        },
        register: 1,
        word: 7,
    },
];

fn hand(numbers: &[u64; 4]) -> Hand {
    let mut hand = Hand::new();
    hand.numbers[..4].copy_from_slice(numbers);
    hand
}

// What the run came to, and the word of the case's register.
fn ran(case: &Case) -> (Outcome, Option<u64>) {
    let mut cells = case.cells;
    let mut machine = Machine {
        registers: Registers::from(&hand(&case.registers)),
        memory: TableMemory::new(&mut cells),
    };
    let outcome = machine.run(case.budget);
    let word = machine.registers.read(case.register).ok();
    (outcome, word.map(|word| encode(&word)))
}

#[test]
fn instructions_do_and_fault_as_listed(rt: HostRuntime) {
    for case in &CASES {
        assert_eq!(rt; ran(case), (case.outcome, Some(case.word)));
    }
}
