// Laws of the definitions, each the contract of a function that only states it.
ghost use Rattle.model.specs.Findings.{FindingsStand};
ghost use Rattle.model.specs.Authority.{StepsWithinAuthority};
ghost use Rattle.model.specs.Course.{RunsEndOnce, RunsCompose, RunsTakeACourse, PlacelessNotExecutable, MissingCellsCarryRefusal};
ghost use Rattle.model.specs.Calls.{CallsDetermined, ChartsExist, ChartsDetermined, RefusalsChangeNothing, AllowedAnswered};
ghost use Rattle.model.specs.Arithmetic.{WordsOf32Bits, QuotientNearest, PairsByNumber};

// The three isolation findings stand after every list of calls on a bench.
pub fn findings_stand()
    ensures { FindingsStand }
{}

// A step holds and changes nothing but by the capabilities in the registers.
pub fn steps_within_authority()
    ensures { StepsWithinAuthority }
{}

// Every run has an end, and only one.
pub fn runs_end_once()
    ensures { RunsEndOnce }
{}

// A run and then another are one run with both budgets.
pub fn runs_compose()
    ensures { RunsCompose }
{}

// A run that begins running uses its whole budget, or its last step halted or faulted and changed nothing.
pub fn runs_take_a_course()
    ensures { RunsTakeACourse }
{}

// A fault without a place is that of a pc that does not execute.
pub fn placeless_not_executable()
    ensures { PlacelessNotExecutable }
{}

// The fault of a missing cell carries the memory's refusal.
pub fn missing_cells_carry_refusal()
    ensures { MissingCellsCarryRefusal }
{}

// The same call in the same state gives the same answer and leaves the same state.
pub fn calls_determined()
    ensures { CallsDetermined }
{}

// A survey over a chart that is long enough comes to a chart.
pub fn charts_exist()
    ensures { ChartsExist }
{}

// A survey leaves one chart, with one pair of counts.
pub fn charts_determined()
    ensures { ChartsDetermined }
{}

// A refusal leaves the bench as it was.
pub fn refusals_change_nothing()
    ensures { RefusalsChangeNothing }
{}

// A call has an answer exactly where the state allows it.
pub fn allowed_answered()
    ensures { AllowedAnswered }
{}

// The integers that fit a word are those of 32 bits.
pub fn words_of_32_bits()
    ensures { WordsOf32Bits }
{}

// The quotient is the nearest integer, halves away from zero.
pub fn quotient_nearest()
    ensures { QuotientNearest }
{}

// The number of a permission and a locality names them, and no other integer names a pair.
pub fn pairs_by_number()
    ensures { PairsByNumber }
{}
