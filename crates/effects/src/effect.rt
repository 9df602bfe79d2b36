use words::Word;

// What is left to do of an instruction that its checks let pass. All but a jump and a halt then advance the pc.
#[derive(Clone, Copy, Debug, PartialEq, Eq)]
pub enum Effect {
    // the word goes into the register
    Put { d: u32, word: Word },
    // the cursor of the register moves by the word, with all the checks of that
    Shift { d: u32, by: Word },
    // the word of the cell goes into the register
    Read { d: u32, address: u32 },
    // the word goes into the cell
    Write { address: u32, word: Word },
    // nothing but the advance
    Pass,
    // the word of the register goes into the pc, an E entered
    Jump { d: u32 },
    Halt,
}
