//! What the list of references is, on a function that does nothing else than state it.

ghost use Rattle.references.specs.Laws.{ReferencesListed};

/// Each reference of the uses once, in order; and no other list is so.
pub fn references_listed()
    ensures { ReferencesListed }
{}
