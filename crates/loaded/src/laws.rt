//! The law of names for models that load, on a function that does nothing else than state it.

ghost use Rattle.loaded.specs.Laws.{NamesOfLoaded};

/// In every file of a model that loads, names are shaped as Python wants them, there is a reason where there are none, and
/// where there are, each tells its reference and the import lines bind it.
pub fn names_of_loaded()
    ensures { NamesOfLoaded }
{}
