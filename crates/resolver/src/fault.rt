// Why a file has no names, or a pair no name in it.
ghost use Rattle.std.specs.Prelude.{◌≡◌};
ghost use Rattle.resolver.specs.declared.fault.Fault.TheVariants.{Memory};
ghost use Rattle.resolver.specs.Answers.{told as told_of};

use std::alloc::AllocError;

#[derive(Clone, Copy, Debug, PartialEq, Eq)]
pub enum Fault {
    // a reference to the own module whose root is not declared
    Undeclared(usize),
    // a name is wanted after the one with the largest number
    Exhausted(usize),
    // the file does not collect the reference
    Uncollected,
    Memory,
}

impl Fault {
    // The refusal's number and place; want of memory has none. They stay numbers: callers and the program's users are told them,
    // and this is the one place that gives a case its number.
    pub fn told(&self) -> Option<(u8, usize)>
        ensures { result ≡ told_of self.now }
    {
        match self {
            Fault::Undeclared(place) => Some((10, *place)),
            Fault::Exhausted(place) => Some((11, *place)),
            Fault::Uncollected => Some((14, 0)),
            Fault::Memory => None,
        }
    }
}

// By hand, since contracts name the error that a `?` makes, and a derived `From` has no contract.
impl From<AllocError> for Fault {
    ghost from_gives = { λ _ r. r ≡ Memory };

    fn from(_e: AllocError) -> Fault {
        Fault::Memory
    }
}
