//! The laws of paths, each on a function that does nothing else than state it.

ghost use Rattle.paths.specs.Laws.{PathsRead, PathsResolve, TextsResolve, WorkedCases};

/// From the base, Python finds the target by its path.
pub fn paths_resolve()
    ensures { PathsResolve }
{}

/// A path is read back from its text.
pub fn paths_read()
    ensures { PathsRead }
{}

/// So Python finds the target by the text of its path.
pub fn texts_resolve()
    ensures { TextsResolve }
{}

/// Paths that are written out.
pub fn worked_cases()
    ensures { WorkedCases }
{}
