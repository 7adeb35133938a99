//! The first places at which a file uses a reference, or a name that it lacks.

ghost use Rattle.std.specs.Prelude.{◌≡◌, ℕ, List, map, IfOk};
ghost use Rattle.model.specs.Limits.{same_reference};
ghost use Rattle.model.specs.Rules.{least};
ghost use Rattle.model.specs.Steps.{declared_of, use_of};
ghost use Rattle.references.specs.Kept.{Names};
ghost use Rattle.references.specs.References.{lacks, name_of, pair_of, reference_of, undeclared, use_places};

use crate::root::split_root;
use model::{Declared, Reference, Use};
use std::alloc::{AllocError, Global};
use std::collections::BTreeSet;

/// Whether a use is of this reference.
fn refers(u: &Use<'_>, reference: Reference<'_>) -> bool
    ensures { result ≡ same_reference (reference_of (use_of u.now)) (pair_of reference.entry) }
{
    u.reference == reference
}

/// The least place of a use of this reference. The uses need not come by their places.
pub fn first_use(uses: &[Use<'_>], reference: Reference<'_>) -> Option<usize>
    ensures { result ≡ least (use_places (pair_of reference.entry) (map use_of uses.now)) }
{
    let places = uses
        .iter()
        .filter(|u| refers(u, reference))
        .map(|u| u.place);
    places.min()
}

/// Whether a use is of the own module, and its root is none of the names.
fn is_undeclared(own: &[u8], names: &BTreeSet<&[u8]>, u: &Use<'_>) -> bool
    ensures { (ns : List (List ℕ)) → Names ns names.now → result ≡ lacks own.now ns (use_of u.now) }
{
    // the root is sought last, so that a use of another module costs no walk over its name
    u.reference.from == own && !names.contains(split_root(u.reference.name).0)
}

/// The least place of a use of a name of the own module, called `own`, that is not declared.
pub fn undeclared_use<'a>(
    heap: Global,
    own: &[u8],
    declared: &[Declared<'a>],
    uses: &[Use<'a>],
) -> Result<Option<usize>, AllocError>
    ensures { IfOk result (λ p. p ≡ least (undeclared own.now (map declared_of declared.now) (map use_of uses.now))) }
{
    // by `extend`, since `collect` would list every declaration before it drops the names that come again
    let mut names = BTreeSet::new(heap);
    names.extend(declared.iter().map(|d| d.name))?;
    Ok(
        uses.iter()
            .filter(|u| is_undeclared(own, &names, u))
            .map(|u| u.place)
            .min(),
    )
}
