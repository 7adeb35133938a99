// The laws of next names, each on a function that does nothing else than state it.
ghost use Rattle.naming.specs.Cases.{CasesHold};
ghost use Rattle.naming.specs.Laws.{ProposalsDiffer, ProposalsShaped};

// No two proposals for a root are the same name.
pub fn proposals_differ()
    ensures { ProposalsDiffer }
{}

// Where the root is spelled as an identifier, each proposal for it is.
pub fn proposals_shaped()
    ensures { ProposalsShaped }
{}

// The worked cases come out as the table says.
pub fn cases_hold()
    ensures { CasesHold }
{}
