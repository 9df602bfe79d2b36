ghost use Rattle.std.specs.Prelude.{ℕ, ◌<◌, ◌≤◌, List, slice_index};
ghost use Rattle.survey.specs.Skips.{SkipsMarked, Skipped};

use memory::CELLS;

// Where to go on from a cell, at one level of marks: all cells from it up to `next` are marked. Where `next` is not above the cell, nothing is known. Addresses are
// plain numbers below 65,536, and no type of their own: those of a range, with which they are compared, may be 65,536 and above.
// An array of a fixed size: nothing is allocated.
#[derive(Drop)]
pub struct Skips {
    next: [u16; CELLS],
}

impl Skips {
    pub fn new() -> Skips
        ensures { (k : ℕ) (marks : List ℕ) → SkipsMarked k marks result }
    {
        Skips { next: [0; CELLS] }
    }

    // A cell at or after this one, up to which all are marked. It also halves the way that the next call has to go.
    pub fn skip(&mut self, address: usize) -> usize
        requires { address < 65536 }
        ensures { Skipped self.old address result self.new }
    {
        let near = self.next[address];
        if usize::from(near) <= address {
            return address;
        }
        let far = self.next[usize::from(near)];
        if far <= near {
            return usize::from(near);
        }
        self.next[address] = far;
        usize::from(far)
    }

    // Notes that a cell is marked. After the last cell there is nowhere to go on.
    pub fn note(&mut self, address: usize)
        requires { address < 65536 }
        ensures { (k : ℕ) (marks : List ℕ) → k ≤ slice_index marks address → SkipsMarked k marks self.old → SkipsMarked k marks self.new }
    {
        // the one test serves both: where it holds, the next address has 16 bits
        if address + 1 < CELLS {
            self.next[address] = (address + 1) as u16;
        }
    }
}
