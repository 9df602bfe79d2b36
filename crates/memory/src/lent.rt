ghost use Rattle.std.specs.Prelude.{◌≡◌, ◌∷◌};
ghost use Rattle.memory.specs.Row.{load_answer, loaded, store_answer, stored_answer};

use super::memory::Memory;
use words::{Refusal, Word};

// A memory that is lent: its own cells.
impl<'a, M: Memory> Memory for &'a mut M {
    const MOST: usize = M::MOST;

    ghost row = { λ m. M.Memory.row m.now };

    ghost beyond = { λ m. M.Memory.beyond m.now };

    ghost lent = { λ m. m.ghost_name ∷ M.Memory.lent m.now };

    ghost most = { M.Memory.most };

    ghost bounded = { λ m. M.Memory.bounded m.now };

    ghost few = { M.Memory.few };

    fn most_cells() -> usize {
        M::most_cells()
    }

    fn size(&self) -> usize {
        (**self).size()
    }

    fn load(&self, address: usize) -> Result<Word, Refusal> {
        (**self).load(address)
    }

    fn store(&mut self, address: usize, word: Word) -> Result<(), Refusal> {
        (**self).store(address, word)
    }
}
