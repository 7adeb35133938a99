// Why a model is refused, and at which offset.
ghost use Rattle.std.specs.Prelude.{◌≡◌};
ghost use Rattle.verdict.specs.declared.refusal.Refusal.TheVariants.{Memory};
ghost use Rattle.verdict.specs.Answers.{told as told_of, from_fault};

use model::Fault;
use std::alloc::AllocError;

#[derive(Clone, Copy, Debug, PartialEq, Eq)]
pub enum Refusal {
    // no byte, or too many
    Size,
    // layout or depth
    Layout(usize),
    // a name's rule
    Name(usize),
    // a number's or a string's rule
    Value(usize),
    // two sibling modules of one name
    Sibling(usize),
    // an attribute with neither annotation nor value
    Empty(usize),
    // too many modules, names or references
    Limit(usize),
    Memory,
}

impl Refusal {
    // The refusal's number and place; want of memory has none. They stay numbers: callers and the program's users are told them,
    // and this is the one place that gives a case its number.
    pub fn told(&self) -> Option<(u8, usize)>
        ensures { result ≡ told_of self.now }
    {
        match self {
            Refusal::Size => Some((1, 0)),
            Refusal::Layout(place) => Some((2, *place)),
            Refusal::Name(place) => Some((3, *place)),
            Refusal::Value(place) => Some((4, *place)),
            Refusal::Sibling(place) => Some((5, *place)),
            Refusal::Empty(place) => Some((6, *place)),
            Refusal::Limit(place) => Some((7, *place)),
            Refusal::Memory => None,
        }
    }
}

// By hand, since contracts name the error that a `?` makes, and a derived `From` has no contract.
impl From<AllocError> for Refusal {
    ghost from_gives = { λ _ r. r ≡ Memory };

    fn from(_e: AllocError) -> Refusal {
        Refusal::Memory
    }
}

impl From<Fault> for Refusal {
    ghost from_gives = { λ e r. r ≡ from_fault e };

    fn from(e: Fault) -> Refusal {
        match e {
            Fault::Broken(layout) => Refusal::Layout(layout.place),
            Fault::Memory => Refusal::Memory,
        }
    }
}
