// The worked cases of the rules, shown from the definitions that the contracts cite.
#![tactic(auto)]

ghost use Rattle.cases.specs.Cases.{CasesHold};

// Every case of the list holds.
pub fn cases_hold()
    ensures { CasesHold }
{}
