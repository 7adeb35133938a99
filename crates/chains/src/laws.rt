//! What names and bases are worth, each on a function that does nothing else than state it.

ghost use Rattle.chains.specs.Laws.{BasesLead, ImportsResolve, ModulesReached, WorkedCases};

/// By a model's list of files, the names and the packages of its tree are found.
pub fn modules_reached()
    ensures { ModulesReached }
{}

/// A base has the parts that Python counts from.
pub fn bases_lead()
    ensures { BasesLead }
{}

/// So Python finds the target of an import.
pub fn imports_resolve()
    ensures { ImportsResolve }
{}

/// Paths that are written out.
pub fn worked_cases()
    ensures { WorkedCases }
{}
