//! The references of a file, in their order.

ghost use Rattle.std.specs.Prelude.{◌≡◌, map, IfOk};
ghost use Rattle.model.specs.Steps.{use_of};
ghost use Rattle.references.specs.References.{pair_of, references};

use model::{Reference, Use};
use std::alloc::{AllocError, Global};
use std::collections::BTreeSet;

/// Each reference of the uses once, in order.
pub fn ascending<'a>(heap: Global, uses: &[Use<'a>]) -> Result<Vec<Reference<'a>>, AllocError>
    ensures { IfOk result (λ v. map pair_of v.items ≡ references (map use_of uses.now)) }
{
    // by `extend`, since `collect` would list every use before it drops those that come again
    let mut set = BTreeSet::new(heap);
    set.extend(uses.iter().map(|u| u.reference))?;
    set.into_iter().collect(heap)
}
