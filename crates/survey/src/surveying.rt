ghost use Rattle.std.specs.Prelude.{◌≡◌, ◌≤◌, length};
ghost use Rattle.groups.specs.Hands.{hand_words};
ghost use Rattle.survey.specs.Progress.{Complete};
ghost use Rattle.survey.specs.Surveyed.{Surveyed};

use super::level::Level;
use super::search::Search;
use groups::{Hand, plain_word};
use memory::Memory;
use words::Refusal;

// How many cells a survey has marked: all of them, and those that the holder can write.
#[derive(Clone, Copy, Debug, PartialEq, Eq)]
pub struct Counts {
    pub marked: usize,
    pub writable: usize,
}

// Marks each cell that the holder of the hand can reach. Each of them is loaded once, and no cell is marked twice at one level, so that
// the time, of which no contract speaks, is nearly linear in their number whatever they hold.
fn mark_reached<M: Memory>(memory: &M, hand: &Hand, marks: &mut [u8])
    requires { (length marks.old ≡ length (M.Memory.row memory.now)) × (length marks.old ≤ 65536) }
    ensures { Complete (hand_words hand.now) (M.Memory.row memory.now) marks.new }
{
    let mut search = Search::new(marks);
    for number in &hand.numbers {
        search.follow(plain_word(*number));
    }
    while let Some(address) = search.next_pending() {
        if let Ok(word) = memory.load(address) {
            search.follow(word);
        }
    }
}

// Sets the byte of each cell to 2 if a held capability that writes covers it, else to 1 if one other than O does, else to 0, and gives the number of cells
// that are marked at all and of those that are marked 2. Bytes past the memory's size stay. A chart that is shorter than the size is refused.
pub fn survey<M: Memory>(memory: &M, hand: &Hand, chart: &mut [u8]) -> Result<Counts, Refusal>
    ensures { Surveyed (hand_words hand.now) (M.Memory.row memory.now) chart.old result chart.new }
{
    let size = memory.size();
    if chart.len() < size {
        return Err(Refusal::ShortChart);
    }
    let marks = &mut chart[0..size];
    mark_reached(memory, hand, marks);
    Ok(Counts {
        marked: Level::Reached.count(marks),
        writable: Level::Writable.count(marks),
    })
}
