// The laws of names, each on a function that does nothing else than state it.
ghost use Rattle.binding.specs.Laws.{LowestTaken, NamesTell, NamesByNumber};

// The name taken for a target is the lowest proposal that is free or its own, and none is taken only where proposals end:
// whatever way names are proposed in, if number 0 is the root and all differ.
pub fn lowest_taken()
    ensures { LowestTaken }
{}

// Two references have one bound name exactly if module and root are equal, a declared name is bound to itself, and nothing
// else is bound: whatever way names are proposed in.
pub fn names_tell()
    ensures { NamesTell }
{}

// The names with rising numbers are such a way.
pub fn names_by_number()
    ensures { NamesByNumber }
{}
