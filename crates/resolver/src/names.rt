// The names of a file of a model.
ghost use Rattle.resolver.specs.Resolves.{Resolves};

use crate::fault::Fault;
use binding::{Fault as Unbound, Names, bind_names};
use model::File;
use references::{ascending, first_use, undeclared_use};
use std::alloc::Global;
use walk::collect;

// The names of this file, whose own module is called `own`. Model and file are two arguments, as at `walk::collect`.
pub fn resolve<'a>(
    heap: Global,
    model: &'a [u8],
    file: File,
    own: &'a [u8],
) -> Result<Names<'a>, Fault>
    ensures { Resolves model.now file own.now result }
{
    let found = collect(heap, model, file)?;
    let uses = found.uses.as_slice();
    let declared = found.declared.as_slice();
    let undeclared = undeclared_use(heap, own, declared, uses)?;
    if let Some(place) = undeclared {
        return Err(Fault::Undeclared(place));
    }
    let references = ascending(heap, uses)?;
    // no `?`, since the place of a fault wants the uses
    match bind_names(heap, own, declared, references.as_slice()) {
        Ok(names) => Ok(names),
        Err(Unbound::Exhausted(reference)) => {
            // a law says that there is a use, and the definition falls back to 0, too
            let place = first_use(uses, reference).unwrap_or(0);
            Err(Fault::Exhausted(place))
        }
        Err(Unbound::Memory) => Err(Fault::Memory),
    }
}
