//! What import lines are worth, each on a function that does nothing else than state it.

ghost use Rattle.imports.specs.Cases.{WorkedCases};
ghost use Rattle.imports.specs.Laws.{LinesImport, LinesTell};

/// The lines import each target that is to be imported, and no other, once, with one line for each module.
pub fn lines_import()
    ensures { LinesImport }
{}

/// Lines of different modules differ.
pub fn lines_tell()
    ensures { LinesTell }
{}

/// References that are written out, with their names and lines.
pub fn worked_cases()
    ensures { WorkedCases }
{}
