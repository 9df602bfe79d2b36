#![tactic(auto, unfolding(model::proofs::Checks::rules))]

ghost use Rattle.std.specs.Prelude.{◌≡◌};
ghost use Rattle.words.specs.Meaning.{meaning};
ghost use Rattle.model.specs.Machine.{read as Read, write as Write};
ghost use Rattle.model.specs.Step.{perform as performed};
ghost use Rattle.effects.specs.Meant.{effect_on};
ghost use Rattle.machine.specs.Files.{file};
ghost use Rattle.machine.specs.Flows.{machine_of, Goes, Lands};

use super::advancing::next;
use super::flow::Flow;
use super::machine::Machine;
use effects::Effect;
use memory::Memory;
use model::Fault;
use words::Word;

impl<M: Memory> Machine<M> {
    // Performs an effect, one by one, since each needs another part of the machine.
    pub(crate) fn perform(&mut self, effect: Effect) -> Result<Flow, Fault>
        ensures flow { Lands (machine_of M.Memory.row self.old) (performed (file self.old.registers) (M.Memory.row self.old.memory) (effect_on (file self.old.registers) effect)) result (machine_of M.Memory.row self.new) }
        ensures rest { M.Memory.beyond self.new.memory ≡ M.Memory.beyond self.old.memory }
        ensures lent { M.Memory.lent self.new.memory ≡ M.Memory.lent self.old.memory }
    {
        match effect {
            Effect::Put { d, word } => self.registers.put_and_advance(d, word)?,
            Effect::Shift { d, by } => self.registers.shift_and_advance(d, by)?,
            Effect::Read { d, address } => self.read(d, address)?,
            Effect::Write { address, word } => self.write(address, word)?,
            Effect::Pass => self.registers.advance()?,
            Effect::Jump { d } => self.registers.jump(d),
            Effect::Halt => return Ok(Flow::Halted),
        }
        Ok(Flow::Moved)
    }

    // Puts the word of a cell into the register and advances.
    fn read(&mut self, d: u32, address: u32) -> Result<(), Fault>
        ensures flow { Goes (machine_of M.Memory.row self.old) (performed (file self.old.registers) (M.Memory.row self.old.memory) (Read d address)) result (machine_of M.Memory.row self.new) }
        ensures memory { self.new.memory ≡ self.old.memory }
    {
        let word = self.memory.load(address as usize).map_err(Fault::NoCell)?;
        self.registers.put_and_advance(d, word)
    }

    // Writes a word into the cell and advances. Nothing is written where the pc cannot advance; that the cell is missing counts first. Only then is the cell loaded,
    // to learn whether it is there: the fault has the memory's own refusal, which a comparison with the size would have to make up.
    fn write(&mut self, address: u32, word: Word) -> Result<(), Fault>
        ensures flow { Goes (machine_of M.Memory.row self.old) (performed (file self.old.registers) (M.Memory.row self.old.memory) (Write address (meaning word))) result (machine_of M.Memory.row self.new) }
        ensures rest { M.Memory.beyond self.new.memory ≡ M.Memory.beyond self.old.memory }
        ensures lent { M.Memory.lent self.new.memory ≡ M.Memory.lent self.old.memory }
    {
        match next(self.registers.pc()) {
            Ok(advanced) => {
                self.memory
                    .store(address as usize, word)
                    .map_err(Fault::NoCell)?;
                self.registers.put(0, advanced);
                Ok(())
            }
            Err(stuck) => {
                self.memory.load(address as usize).map_err(Fault::NoCell)?;
                Err(stuck)
            }
        }
    }
}
