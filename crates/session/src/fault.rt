// What a call of the session answers where it refuses.
ghost use Rattle.std.specs.Prelude.{◌≡◌};
ghost use Rattle.session.specs.declared.fault.Fault.TheVariants.{Reader, Resolver, Memory};
ghost use Rattle.session.specs.Answers.{told as told_of};

use resolver::Fault as Unresolved;
use std::alloc::AllocError;
use verdict::Refusal;

#[derive(Clone, Copy, Debug, PartialEq, Eq)]
pub enum Fault {
    // the model is refused
    Reader(Refusal),
    // the file has no names, or the pair none in it
    Resolver(Unresolved),
    // no model is loaded yet
    NoModel,
    // the model has no file of this number
    NoFile,
    // the buffer is shorter than this length
    Room(usize),
    Memory,
}

impl Fault {
    // The refusal's number and place; want of memory has none. They stay numbers: callers and the program's users are told them,
    // and this is the one place that gives a case its number.
    pub fn told(&self) -> Option<(u8, usize)>
        ensures { result ≡ told_of self.now }
    {
        match self {
            Fault::Reader(refusal) => refusal.told(),
            Fault::Resolver(fault) => fault.told(),
            Fault::NoModel => Some((8, 0)),
            Fault::NoFile => Some((9, 0)),
            Fault::Room(length) => Some((15, *length)),
            Fault::Memory => None,
        }
    }
}

// By hand, since contracts name the error that a `?` makes, and a derived `From` has no contract.
impl From<Refusal> for Fault {
    ghost from_gives = { λ e r. r ≡ Reader e };

    fn from(e: Refusal) -> Fault {
        Fault::Reader(e)
    }
}

impl From<Unresolved> for Fault {
    ghost from_gives = { λ e r. r ≡ Resolver e };

    fn from(e: Unresolved) -> Fault {
        Fault::Resolver(e)
    }
}

impl From<AllocError> for Fault {
    ghost from_gives = { λ _ r. r ≡ Memory };

    fn from(_e: AllocError) -> Fault {
        Fault::Memory
    }
}
