// Why the names of a file are not bound.
ghost use Rattle.std.specs.Prelude.{◌≡◌};
ghost use Rattle.binding.specs.declared.fault.Fault.TheVariants.{Memory};

use references::Reference;
use std::alloc::{AllocError, AllocFailed};

#[derive(Clone, Copy, Debug, PartialEq, Eq)]
pub enum Fault<'a> {
    // all proposals for this reference are bound to others
    Exhausted(Reference<'a>),
    Memory,
}

// By hand, since contracts name the error that a `?` makes, and a derived `From` has no contract.
impl<'a> From<AllocError> for Fault<'a> {
    ghost from_gives = { λ _ r. r ≡ Memory };

    fn from(_e: AllocError) -> Fault<'a> {
        Fault::Memory
    }
}

// What could not be stored is dropped.
impl<'a, T: Drop> From<AllocFailed<T>> for Fault<'a> {
    ghost from_gives = { λ _ r. r ≡ Memory };

    fn from(_e: AllocFailed<T>) -> Fault<'a> {
        Fault::Memory
    }
}
