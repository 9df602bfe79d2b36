#![tactic(auto, unfolding(model::proofs::Checks::rules))]

ghost use Rattle.std.specs.Prelude.{◌≡◌};
ghost use Rattle.words.specs.Meaning.{meaning};
ghost use Rattle.model.specs.Effects.{effect as effects};
ghost use Rattle.model.specs.Step.{instruction_in, obeyed, request as requested};
ghost use Rattle.effects.specs.Meant.{given_on};
ghost use Rattle.machine.specs.Files.{file};
ghost use Rattle.machine.specs.Flows.{machine_of};

use super::machine::Machine;
use super::registers::Registers;
use effects::{
    Effect, Part, get, isptr, jnz, load, lt, minus, plus, quot, restrict, store, subseg,
};
use instructions::{Instruction, unpack};
use memory::Memory;
use model::Fault;
use words::Word;

impl<M: Memory> Machine<M> {
    // Fetches the word at the pc, and says what its instruction does.
    pub(crate) fn request(&self) -> Result<Effect, Fault>
        ensures { given_on (file self.now.registers) result ≡ requested (machine_of M.Memory.row self.now) }
    {
        let pc = self
            .registers
            .pc()
            .capability()
            .ok_or(Fault::NotExecutable)?;
        if !pc.permission().executes() || !pc.covers(pc.cursor()) {
            return Err(Fault::NotExecutable);
        }
        let word = self
            .memory
            .load(pc.cursor() as usize)
            .map_err(Fault::NoCell)?;
        obey(&self.registers, word)
    }
}

// What the instruction in a word does.
fn obey(registers: &Registers, word: Word) -> Result<Effect, Fault>
    ensures { given_on (file registers.now) result ≡ obeyed (file registers.now) (instruction_in (meaning word)) }
{
    let number = word.integer().ok_or(Fault::NoInstruction)?;
    let instruction = unpack(number).ok_or(Fault::NoInstruction)?;
    effect(registers, instruction)
}

// What an instruction does, one by one, since each reads its own registers.
fn effect(registers: &Registers, instruction: Instruction) -> Result<Effect, Fault>
    ensures { given_on (file registers.now) result ≡ effects (file registers.now) instruction }
{
    match instruction {
        Instruction::Fail => Err(Fault::OrderedFail),
        Instruction::Halt => Ok(Effect::Halt),
        Instruction::Jmp { d } => Ok(Effect::Jump { d }),
        Instruction::Jnz { d, a } => Ok(jnz(d, registers.value(a))),
        Instruction::Move { d, a } => Ok(Effect::Put {
            d,
            word: registers.value(a),
        }),
        Instruction::Load { d, a } => load(d, registers.get(a)),
        Instruction::Store { d, a } => store(registers.get(d), registers.value(a)),
        Instruction::Plus { d, a, b } => plus(d, registers.value(a), registers.value(b)),
        Instruction::Minus { d, a, b } => minus(d, registers.value(a), registers.value(b)),
        Instruction::Lt { d, a, b } => lt(d, registers.value(a), registers.value(b)),
        Instruction::Lea { d, a } => Ok(Effect::Shift {
            d,
            by: registers.value(a),
        }),
        Instruction::Restrict { d, a } => restrict(d, registers.get(d), registers.value(a)),
        Instruction::Subseg { d, a, b } => subseg(
            d,
            registers.get(d),
            registers.value(a),
            registers.value(b),
        ),
        Instruction::IsPtr { d, a } => Ok(isptr(d, registers.value(a))),
        Instruction::GetP { d, a } => get(d, registers.get(a), Part::Permission),
        Instruction::GetL { d, a } => get(d, registers.get(a), Part::Locality),
        Instruction::GetB { d, a } => get(d, registers.get(a), Part::Base),
        Instruction::GetE { d, a } => get(d, registers.get(a), Part::End),
        Instruction::GetA { d, a } => get(d, registers.get(a), Part::Cursor),
        Instruction::Quot { d, a, b } => quot(d, registers.value(a), registers.value(b)),
    }
}
