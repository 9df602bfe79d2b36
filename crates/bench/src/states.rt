use machine::Machine;
use memory::Memory;
use model::Status;

// A bench with no visit open: words are placed and read, hands are surveyed, and a visit is opened. Its registers are all integer 0, so that it keeps none.
pub struct Idle<M: Memory> {
    memory: M,
}

// A bench with a visit open: it is run, its registers are read, and it is closed.
pub struct Visit<M: Memory> {
    machine: Machine<M>,
    status: Status,
}

mod idling;
mod visiting;
