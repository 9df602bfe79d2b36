#![tactic(auto, unfolding(model::proofs::Checks::rules))]

ghost use Rattle.std.specs.Prelude.{◌≡◌};
ghost use Rattle.model.specs.declared.status.Status.TheVariants.{Running};
ghost use Rattle.model.specs.Step.{step as stepped};
ghost use Rattle.model.specs.Run.{Runs};
ghost use Rattle.machine.specs.Flows.{machine_of, machine_after, flow_of};

use super::flow::Flow;
use super::machine::Machine;
use memory::Memory;
use model::{Fault, Status};

// How a run left the machine, and the steps that it made.
#[derive(Clone, Copy, Debug, PartialEq, Eq)]
pub struct Outcome {
    pub status: Status,
    pub steps: u32,
}

impl<M: Memory> Machine<M> {
    // One step. A halt or a fault changes no register and no cell.
    pub fn step(&mut self) -> Result<Flow, Fault>
        ensures flow { result ≡ flow_of (stepped (machine_of M.Memory.row self.old)) }
        ensures machine { machine_of M.Memory.row self.new ≡ machine_after (stepped (machine_of M.Memory.row self.old)) (machine_of M.Memory.row self.old) }
        ensures rest { M.Memory.beyond self.new.memory ≡ M.Memory.beyond self.old.memory }
        ensures lent { M.Memory.lent self.new.memory ≡ M.Memory.lent self.old.memory }
    {
        let effect = self.request()?;
        self.perform(effect)
    }

    // Makes steps until the budget is spent, or one halts or faults.
    pub fn run(&mut self, budget: u32) -> Outcome
        ensures runs { Runs budget (machine_of M.Memory.row self.old) Running result.steps (machine_of M.Memory.row self.new) result.status }
        ensures rest { M.Memory.beyond self.new.memory ≡ M.Memory.beyond self.old.memory }
        ensures lent { M.Memory.lent self.new.memory ≡ M.Memory.lent self.old.memory }
    {
        for i in 0..budget {
            let (status, steps) = match self.step() {
                Ok(Flow::Moved) => continue,
                Ok(Flow::Halted) => (Status::Halted, i + 1),
                Err(cause) => (
                    Status::Failed {
                        cause,
                        place: self.registers.place(),
                    },
                    i + 1,
                ),
            };
            return Outcome { status, steps };
        }
        Outcome {
            status: Status::Running,
            steps: budget,
        }
    }
}
