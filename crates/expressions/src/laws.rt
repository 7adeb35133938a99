// Worked cases, on a function that does nothing else than state them.
ghost use Rattle.expressions.specs.Cases.{CasesHold, DecoratorsHold};

// The texts of expressions and of decorators come out as the tables say.
pub fn worked_cases()
    ensures texts { CasesHold }
    ensures decorators { DecoratorsHold }
{}
