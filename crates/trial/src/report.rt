ghost use Rattle.std.specs.Prelude.{◌++◌, Some};
ghost use Rattle.trial.specs.Texts.{place_text, outcome_text, report_text};

use machine::Outcome;
use model::Status;
use std::fmt;
use survey::Counts;

// What a trial came to: the counts of the survey, and the outcome of the run.
#[derive(Clone, Copy, Debug, PartialEq, Eq)]
pub struct Ending {
    pub counts: Counts,
    pub outcome: Outcome,
}

// The report of a trial: what it came to, and the groups of the cells before and after the run.
#[derive(Drop)]
pub struct Report<'a, 'b> {
    pub ending: Ending,
    pub before: &'a [u8],
    pub after: &'b [u8],
}

// The line of the survey, and the lines of the outcome.
impl<'a, 'b> fmt::Display for Report<'a, 'b> {
    ghost output = { λ r. Some (report_text r.ending.counts.marked r.ending.counts.writable r.ending.outcome.status r.ending.outcome.steps) };

    fn fmt<W: fmt::Write>(&self, f: &mut fmt::Formatter<W>) -> fmt::Result {
        let Counts { marked, writable } = self.ending.counts;
        let outcome = Ended(self.ending.outcome);
        write!(f, "reach {marked} {writable}\noutcome {outcome}")
    }
}

// The outcome of a run, with a line for the fault if there is one.
#[derive(Clone, Copy)]
struct Ended(Outcome);

impl fmt::Display for Ended {
    ghost output = { λ e. Some (outcome_text e.0.status e.0.steps) };

    fn fmt<W: fmt::Write>(&self, f: &mut fmt::Formatter<W>) -> fmt::Result {
        let Outcome { status, steps } = self.0;
        match status {
            Status::Running => write!(f, "running steps {steps}"),
            Status::Halted => write!(f, "halted steps {steps}"),
            Status::Failed { cause, place } => {
                let number = cause.number();
                let place = Place(place);
                write!(f, "failed steps {steps}\nfault {number} at {place}")
            }
        }
    }
}

// The place of a fault, `-` where it is absent.
#[derive(Clone, Copy)]
struct Place(Option<u32>);

impl fmt::Display for Place {
    ghost output = { λ p. Some (place_text p.0) };

    fn fmt<W: fmt::Write>(&self, f: &mut fmt::Formatter<W>) -> fmt::Result {
        match self.0 {
            Some(address) => write!(f, "{address}"),
            None => write!(f, "-"),
        }
    }
}
