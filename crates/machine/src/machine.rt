use super::registers::Registers;
use memory::Memory;

// Sixteen registers, and a memory of any kind.
#[derive(Drop)]
pub struct Machine<M: Memory> {
    pub registers: Registers,
    pub memory: M,
}
