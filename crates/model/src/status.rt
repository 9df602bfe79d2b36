use super::fault::Fault;

// How a visit stands.
#[derive(Clone, Copy, Debug, PartialEq, Eq)]
pub enum Status {
    // the next step can be made
    Running,
    // a step halted
    Halted,
    // a step faulted: why, and the cursor of the pc, absent where the pc holds an integer
    Failed { cause: Fault, place: Option<u32> },
}
