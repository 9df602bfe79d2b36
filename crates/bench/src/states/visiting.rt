ghost use Rattle.std.specs.Prelude.{◌≡◌};
ghost use Rattle.model.specs.Bench.{run as running, register_reading, closing, done};
ghost use Rattle.model.specs.Findings.{Lawful};
ghost use Rattle.bench.specs.States.{idle_of, visit_of};
ghost use Rattle.bench.specs.Answers.{word_answer, run_answer};

use super::{Idle, Visit};
use machine::{Machine, Outcome};
use memory::Memory;
use model::Status;
use words::{Refusal, Word};

impl<M: Memory> Visit<M> {
    // Makes steps until the budget is spent, or one halts or faults. The outcome is how the visit then stands, and the steps made: none where it had stopped before.
    pub fn run(&mut self, budget: u32) -> Outcome
        ensures lawful { Lawful (visit_of M.Memory.row self.old) (running budget) (run_answer result) (visit_of M.Memory.row self.new) }
        ensures rest { M.Memory.beyond self.new.machine.memory ≡ M.Memory.beyond self.old.machine.memory }
        ensures lent { M.Memory.lent self.new.machine.memory ≡ M.Memory.lent self.old.machine.memory }
    {
        match self.status {
            Status::Running => {
                let outcome = self.machine.run(budget);
                self.status = outcome.status;
                outcome
            }
            stopped => Outcome {
                status: stopped,
                steps: 0,
            },
        }
    }

    // The word of a register; refused where there is no such register.
    pub fn register(&self, number: usize) -> Result<Word, Refusal>
        ensures { Lawful (visit_of M.Memory.row self.now) (register_reading number) (word_answer result) (visit_of M.Memory.row self.now) }
    {
        self.machine.registers.read(number)
    }

    // Ends the visit: its registers are gone, and the idle bench is back.
    pub fn close(self) -> Idle<M>
        ensures lawful { Lawful (visit_of M.Memory.row self) closing done (idle_of M.Memory.row result) }
        ensures memory { result.memory ≡ self.machine.memory }
    {
        let Visit { machine, status: _ } = self;
        let Machine {
            registers: _,
            memory,
        } = machine;
        Idle { memory }
    }
}
