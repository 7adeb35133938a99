// The rules on a model, and what is proved of them.
#![tactic(auto)]

ghost use Rattle.rules.specs.Meets.{LoadsExactly};
ghost use Rattle.rules.specs.Refusals.{RefusesFirst};
ghost use Rattle.rules.specs.Cases.{CasesHold, table};

// The verdict accepts exactly the models that load.
pub fn loads_exactly()
    ensures { LoadsExactly }
{}

// A well laid-out model is refused by the first number that shows, at the least place at which it shows.
pub fn refuses_first()
    ensures { RefusesFirst }
{}

// The worked cases come out as the table says.
pub fn worked_cases()
    ensures { CasesHold table }
{}
