// The least place in a list of entries at which a key comes again, or at which one key too many has come.
#![tactic(auto)]

ghost use Rattle.std.specs.Prelude.{◌≡◌, map, IfOk};
ghost use Rattle.model.specs.Rules.{least};
ghost use Rattle.model.specs.Limits.{repeated_siblings, surplus_uses, surplus_declared_of};
ghost use Rattle.model.specs.Steps.{held_of, use_of, declared_of};

mod entry;
mod places;

use model::{Declared, Listed, Use};
use places::{least_repeat, least_surplus};
use std::alloc::{AllocError, Global};

// The least place of a module that has a sibling of the same name before it.
#[tactic(auto, using(crate::proofs::Fits::siblings_fit))]
pub fn repeated_sibling<'a>(
    heap: Global,
    modules: &[Listed<'a>],
) -> Result<Option<usize>, AllocError>
    ensures { IfOk result (λ p. p ≡ least (repeated_siblings (map held_of modules.now))) }
{
    least_repeat(heap, modules)
}

// The least place of a reference with which a file has too many different ones.
#[tactic(auto, using(crate::proofs::Fits::uses_fit))]
pub fn surplus_use<'a>(heap: Global, uses: &[Use<'a>]) -> Result<Option<usize>, AllocError>
    ensures { IfOk result (λ p. p ≡ least (surplus_uses (map use_of uses.now))) }
{
    least_surplus(heap, uses)
}

// The least place of a declared name with which a file has too many different ones.
#[tactic(auto, using(crate::proofs::Fits::declared_fits))]
pub fn surplus_declared<'a>(
    heap: Global,
    declared: &[Declared<'a>],
) -> Result<Option<usize>, AllocError>
    ensures { IfOk result (λ p. p ≡ least (surplus_declared_of (map declared_of declared.now))) }
{
    least_surplus(heap, declared)
}
