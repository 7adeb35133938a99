// What stops the reader.
ghost use Rattle.std.specs.Prelude.{◌≡◌};
ghost use Rattle.model.specs.declared.fault.Fault.TheVariants.{Broken, Memory};

use std::alloc::{AllocError, AllocFailed};

// The layout is broken or too deep at this offset.
#[derive(Clone, Copy, Debug, PartialEq, Eq)]
pub struct Layout {
    pub place: usize,
}

#[derive(Clone, Copy, Debug, PartialEq, Eq)]
pub enum Fault {
    Broken(Layout),
    Memory,
}

// By hand, since contracts name the error that a `?` makes, and a derived `From` has no contract.
impl From<Layout> for Fault {
    ghost from_gives = { λ e r. r ≡ Broken e };

    fn from(e: Layout) -> Fault {
        Fault::Broken(e)
    }
}

impl From<AllocError> for Fault {
    ghost from_gives = { λ _ r. r ≡ Memory };

    fn from(_e: AllocError) -> Fault {
        Fault::Memory
    }
}

impl<T: Drop> From<AllocFailed<T>> for Fault {
    ghost from_gives = { λ _ r. r ≡ Memory };

    fn from(_e: AllocFailed<T>) -> Fault {
        Fault::Memory
    }
}
