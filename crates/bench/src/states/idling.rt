ghost use Rattle.std.specs.Prelude.{◌≡◌, length, replicate};
ghost use Rattle.words.specs.Word.{zero_word};
ghost use Rattle.words.specs.Meaning.{meaning};
ghost use Rattle.groups.specs.Hands.{hand_words};
ghost use Rattle.model.specs.Bench.{placing, reading, survey as surveying, chart_left, opening, done};
ghost use Rattle.model.specs.Findings.{Starts, Lawful};
ghost use Rattle.bench.specs.States.{idle_of, visit_of};
ghost use Rattle.bench.specs.Answers.{done_answer, word_answer, survey_answer};

use super::{Idle, Visit};
use groups::Hand;
use machine::{Machine, Registers};
use memory::Memory;
use model::Status;
use survey::{Counts, survey};
use words::{Refusal, Word};

impl<M: Memory> Idle<M> {
    // A bench over a memory, with every cell set to integer 0.
    pub fn make(mut memory: M) -> Idle<M>
        ensures starts { Starts (length (M.Memory.row memory)) (idle_of M.Memory.row result) }
        ensures cells { M.Memory.row result.memory ≡ replicate (length (M.Memory.row memory)) zero_word }
        ensures rest { M.Memory.beyond result.memory ≡ M.Memory.beyond memory }
        ensures lent { M.Memory.lent result.memory ≡ M.Memory.lent memory }
    {
        let size = memory.size();
        for address in 0..size {
            // not refused, since there is such a cell
            let _ = memory.store(address, Word::Int(0));
        }
        Idle { memory }
    }

    // Puts a word into a cell; refused where there is no such cell.
    pub fn place(&mut self, address: usize, word: Word) -> Result<(), Refusal>
        ensures lawful { Lawful (idle_of M.Memory.row self.old) (placing address (meaning word)) (done_answer result) (idle_of M.Memory.row self.new) }
        ensures rest { M.Memory.beyond self.new.memory ≡ M.Memory.beyond self.old.memory }
        ensures lent { M.Memory.lent self.new.memory ≡ M.Memory.lent self.old.memory }
    {
        self.memory.store(address, word)
    }

    // The word of a cell; refused where there is no such cell.
    pub fn read(&self, address: usize) -> Result<Word, Refusal>
        ensures { Lawful (idle_of M.Memory.row self.now) (reading address) (word_answer result) (idle_of M.Memory.row self.now) }
    {
        self.memory.load(address)
    }

    // Charts what the holder of a hand could reach, and counts it: the cells marked at all, and those marked 2 (writable). Refused where the chart is shorter
    // than the memory's size, and the chart then stays.
    pub fn survey(&self, hand: &Hand, chart: &mut [u8]) -> Result<Counts, Refusal>
        ensures lawful { Lawful (idle_of M.Memory.row self.now) (surveying (hand_words hand.now) chart.old) (survey_answer result chart.new) (idle_of M.Memory.row self.now) }
        ensures left { chart.new ≡ chart_left chart.old (survey_answer result chart.new) }
    {
        survey(&self.memory, hand, chart)
    }

    // Opens a visit: the hand's words go into the registers.
    pub fn open(self, hand: &Hand) -> Visit<M>
        ensures lawful { Lawful (idle_of M.Memory.row self) (opening (hand_words hand.now)) done (visit_of M.Memory.row result) }
        ensures memory { result.machine.memory ≡ self.memory }
    {
        let Idle { memory } = self;
        Visit {
            machine: Machine {
                registers: Registers::from(hand),
                memory,
            },
            status: Status::Running,
        }
    }

    // The memory again, as it stands.
    pub fn end(self) -> M
        ensures { result ≡ self.memory }
    {
        let Idle { memory } = self;
        memory
    }
}
