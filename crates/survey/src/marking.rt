ghost use Rattle.std.specs.Prelude.{ℕ, ◌+◌, ◌<◌, ◌≤◌, length};
ghost use Rattle.survey.specs.Levels.{level_number};
ghost use Rattle.survey.specs.Marking.{blanks, Raised};
ghost use Rattle.survey.specs.Skips.{SkipsMarked};

use super::level::Level;
use super::skips::Skips;
use arrayvec::ArrayVec;
use memory::CELLS;
use words::Bounds;

// Marks one cell at least at a level, and lists it where it had no mark.
fn mark(marks: &mut [u8], pending: &mut ArrayVec<u16, CELLS>, address: usize, level: Level)
    requires cell { address < length marks.old }
    requires small { length marks.old ≤ 65536 }
    requires room { length pending.old.items + blanks marks.old ≤ length marks.old }
    ensures { Raised (level_number level) address (address + 1) marks.old pending.old.items marks.new pending.new.items }
{
    let byte = u8::from(level);
    let before = marks[address];
    if before < byte {
        if before == 0 {
            // 16 bits hold it, since there are at most 65,536 marks
            pending.push(address as u16);
        }
        marks[address] = byte;
    }
}

// Marks the cells within bounds at least at a level, as far as there are cells, and skips those that are known to be.
// A function over the parts of a search, and no method: as a method it read again at each cell where the marks are, and a survey of a table took up to a
// third longer.
pub fn mark_range(
    marks: &mut [u8],
    pending: &mut ArrayVec<u16, CELLS>,
    skips: &mut Skips,
    bounds: Bounds,
    level: Level,
)
    requires small { length marks.old ≤ 65536 }
    requires room { length pending.old.items + blanks marks.old ≤ length marks.old }
    requires marked { SkipsMarked (level_number level) marks.old skips.old }
    ensures raised { Raised (level_number level) bounds.base bounds.end marks.old pending.old.items marks.new pending.new.items }
    ensures marked { SkipsMarked (level_number level) marks.new skips.new }
{
    let end = marks.len().min(bounds.end as usize);
    let mut address = bounds.base as usize;
    // no `for` can express this loop, since a skip may go over any number of cells
    while address < end {
        let next = skips.skip(address);
        if next > address {
            address = next;
        } else {
            mark(marks, pending, address, level);
            skips.note(address);
            address += 1;
        }
    }
}
