ghost use Rattle.std.specs.Prelude.{◌≡◌, ℕ, ◌+◌, ◌<◌, ◌≤◌, [], length, slice_index};
ghost use Rattle.words.specs.Meaning.{meaning};
ghost use Rattle.survey.specs.Levels.{level_number, word_level, word_base, word_end};
ghost use Rattle.survey.specs.Marking.{blanks, Raised};
ghost use Rattle.survey.specs.Pending.{Taken};
ghost use Rattle.survey.specs.Skips.{AllMarked, SkipsMarked};

use super::level::Level;
use super::marking::mark_range;
use super::skips::Skips;
use arrayvec::ArrayVec;
use memory::CELLS;
use words::Word;

// A search for the cells that a hand reaches. It has the marks, the cells that are marked and whose words are not followed yet, and for each level the skips
// over cells that are marked so. The list has room for every cell that is not marked yet.
// Each method says by `same_reference` that the marks stay behind the reference that they came by. No ghost field can: it would speak of one state of a
// search, and this is of two, before a call and after.
// Three areas of fixed size, 384 KiB of stack: nothing is allocated, so that no survey fails for want of memory.
#[derive(Drop)]
pub struct Search<'a> {
    marks: &'a mut [u8],
    pending: ArrayVec<u16, CELLS>,
    // Two fields, and `follow` matches on the level: with an array of the two, indexed by the level, a survey of a long chain took a fifth longer.
    reached: Skips,
    writable: Skips,
    ghost small: { length marks.now ≤ 65536 },
    ghost room: { length pending.items + blanks marks.now ≤ length marks.now },
    ghost reached_marked: { SkipsMarked 1 marks.now reached },
    ghost writable_marked: { SkipsMarked 2 marks.now writable },
}

impl<'a> Search<'a> {
    // A search that has followed no word yet: no cell is marked.
    pub fn new(marks: &'a mut [u8]) -> Search<'a>
        requires { length marks.old ≤ 65536 }
        ensures same_reference { result.marks.ghost_name ≡ marks.entry.ghost_name }
        ensures as_long { length result.marks.now ≡ length marks.old }
        ensures unmarked { (a : ℕ) → slice_index result.marks.now a ≡ 0 }
        ensures empty { result.pending.items ≡ [] }
    {
        marks.fill(0);
        Search {
            marks,
            pending: ArrayVec::new(),
            reached: Skips::new(),
            writable: Skips::new(),
        }
    }

    // Takes a cell whose word is not followed yet off the list.
    pub fn next_pending(&mut self) -> Option<usize>
        ensures same_reference { self.new.marks.ghost_name ≡ self.old.marks.ghost_name }
        ensures marks { self.new.marks.now ≡ self.old.marks.now }
        ensures taken { Taken self.old.pending.items result self.new.pending.items }
    {
        self.pending.pop().map(usize::from)
    }

    // Marks what a word covers, and lists what had no mark. A word that is no capability covers nothing.
    // Inlined always: a survey of a long chain took a quarter longer where it was not.
    #[inline(always)]
    pub fn follow(&mut self, word: Word)
        ensures same_reference { self.new.marks.ghost_name ≡ self.old.marks.ghost_name }
        ensures raised { Raised (word_level (meaning word)) (word_base (meaning word)) (word_end (meaning word)) self.old.marks.now self.old.pending.items self.new.marks.now self.new.pending.items }
    {
        if let Word::Cap(held) = word
            && let Some(level) = Level::of(held.permission())
        {
            let bounds = held.bounds();
            match level {
                Level::Reached => mark_range(
                    self.marks,
                    &mut self.pending,
                    &mut self.reached,
                    bounds,
                    level,
                ),
                Level::Writable => mark_range(
                    self.marks,
                    &mut self.pending,
                    &mut self.writable,
                    bounds,
                    level,
                ),
            }
        }
    }
}
