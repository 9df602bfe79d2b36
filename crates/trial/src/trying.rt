ghost use Rattle.std.specs.Prelude.{◌≡◌, ℕ, ◌*◌, ◌/◌, ◌≤◌, List, length};
ghost use Rattle.groups.specs.Hands.{hand_words};
ghost use Rattle.memory.specs.Packs.{packed_row};
ghost use Rattle.model.specs.Bench.{History, Leads};
ghost use Rattle.bench.specs.States.{idle_of};
ghost use Rattle.trial.specs.Trials.{placings, Ends, Tries};

use super::report::{Ending, Report};
use bench::Idle;
use groups::unpack;
use memory::{Memory, PackedMemory};
use sheet::{MOST_CELLS, Malformed, Sheet, read_sheet};
use words::Word;

// The bytes of the most cells that a sheet has.
pub const AREA: usize = 8 * MOST_CELLS;

// Places the words of the groups, each into the cell of its own number.
fn place_groups<M: Memory>(bench: &mut Idle<M>, groups: &[u8])
    requires { length groups.now / 8 ≤ length (M.Memory.row bench.old.memory) }
    ensures placed { (size : ℕ) (history : History) → Leads size history (idle_of M.Memory.row bench.old) → Leads size (placings (packed_row groups.now) (length groups.now / 8) history) (idle_of M.Memory.row bench.new) }
    ensures size { length (M.Memory.row bench.new.memory) ≡ length (M.Memory.row bench.old.memory) }
{
    for (address, group) in groups.chunks_exact(8).enumerate() {
        // as a packed memory over the groups reads it
        let word = unpack(group).unwrap_or(Word::Int(0));
        // not refused, since there is such a cell
        let _ = bench.place(address, word);
    }
}

// A trial of a sheet on any memory that has a cell for each group: the memory as it is left, and what the trial came to.
fn try_on<M: Memory>(memory: M, sheet: &Sheet<'_>) -> (M, Ending)
    requires { (length (M.Memory.row memory) ≡ length (packed_row sheet.now.cells.now)) × (length (M.Memory.row memory) ≤ MOST_CELLS) }
    ensures { Ends (packed_row sheet.now.cells.now) (hand_words sheet.now.hand) sheet.now.budget result.1 (M.Memory.row result.0) }
{
    let mut bench = Idle::make(memory);
    place_groups(&mut bench, sheet.cells);
    // of a fixed size: nothing is allocated, so that no trial fails for want of memory
    let mut chart = [0u8; MOST_CELLS];
    // not refused, since the chart has a byte for each cell
    let counts = bench.survey(&sheet.hand, &mut chart).unwrap();
    let mut visit = bench.open(&sheet.hand);
    let outcome = visit.run(sheet.budget);
    (visit.close().end(), Ending { counts, outcome })
}

// A trial of a sheet, on a packed memory in the area.
fn try_sheet<'a, 'b>(sheet: Sheet<'a>, area: &'b mut [u8; AREA]) -> Report<'a, 'b>
    requires { length sheet.cells.now ≤ AREA }
    ensures tried { Ends (packed_row result.before.now) (hand_words sheet.entry.hand) sheet.entry.budget result.ending (packed_row result.after.now) }
    ensures before { result.before.now ≡ sheet.entry.cells.now }
{
    let memory = PackedMemory::new(&mut area[..sheet.cells.len()]);
    let (memory, ending) = try_on(memory, &sheet);
    Report {
        ending,
        before: sheet.cells,
        after: memory.back(),
    }
}

// Tries the sheet in an input, on a packed memory in the area, or says why the input is none.
pub fn trial<'a, 'b>(input: &'a [u8], area: &'b mut [u8; AREA]) -> Result<Report<'a, 'b>, Malformed>
    ensures { Tries input.now result }
{
    let sheet = read_sheet(input)?;
    Ok(try_sheet(sheet, area))
}
