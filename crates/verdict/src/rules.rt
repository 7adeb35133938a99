// The rules over what reading has gathered.
ghost use Rattle.std.specs.Prelude.{◌≡◌, map as list_map, drop, IfOk};
ghost use Rattle.model.specs.Rules.{least};
ghost use Rattle.model.specs.Steps.{file_of, gathered, held_of};
ghost use Rattle.walk.specs.Total.{own_in};
ghost use Rattle.verdict.specs.Judged.{root_named_of, own_surplus, files_surplus_of, file_place, surplus_in, Checks};
ghost use Rattle.model.specs.Verdict.{modules_allowed};

use crate::refusal::Refusal;
use limits::{repeated_sibling, surplus_declared, surplus_use};
use model::{Audit, File, Listed, sooner};
use std::alloc::{AllocError, Global};
use walk::collect;

// So many modules are allowed.
const MODULES: usize = 128;

// The root where it is called builtins, which is the module of Python's own names.
fn root_named(modules: &[Listed<'_>]) -> Option<usize>
    ensures { result ≡ least (root_named_of (list_map held_of modules.now)) }
{
    match modules.first() {
        Some(root) if root.name == b"builtins".as_slice() => Some(root.file.place),
        _ => None,
    }
}

// The least place at which this file declares or collects too much. Model and file are two arguments, as at `walk::collect`.
fn file_surplus(heap: Global, model: &[u8], file: File) -> Result<Option<usize>, AllocError>
    ensures { IfOk result (λ p. p ≡ least (own_surplus (own_in model.now file))) }
{
    let collected = collect(heap, model, file)?;
    let declared = surplus_declared(heap, collected.declared.as_slice())?;
    let uses = surplus_use(heap, collected.uses.as_slice())?;
    Ok(sooner(declared, uses))
}

fn files_surplus(
    heap: Global,
    model: &[u8],
    modules: &[Listed<'_>],
) -> Result<Option<usize>, AllocError>
    ensures { IfOk result (λ p. p ≡ least (files_surplus_of model.now (list_map file_of modules.now))) }
{
    let mut least = None;
    for module in modules {
        let own = file_surplus(heap, model, module.file)?;
        least = sooner(least, own);
    }
    Ok(least)
}

// The least place of a module too many.
fn surplus_module(modules: &[Listed<'_>]) -> Option<usize>
    ensures { result ≡ least (drop modules_allowed (list_map file_place (list_map file_of modules.now))) }
{
    modules
        .iter()
        .skip(MODULES)
        .map(|module| module.file.place)
        .min()
}

fn surplus(heap: Global, model: &[u8], modules: &[Listed<'_>]) -> Result<Option<usize>, AllocError>
    ensures { IfOk result (λ p. p ≡ least (surplus_in model.now (list_map file_of modules.now))) }
{
    let last = surplus_module(modules);
    let own = files_surplus(heap, model, modules)?;
    Ok(sooner(last, own))
}

// Whether what reading has gathered breaks a rule: the first number that shows, at its least place.
pub(crate) fn check(heap: Global, model: &[u8], audit: &Audit<'_>) -> Result<(), Refusal>
    ensures { Checks model.now (gathered audit.now.found audit.now.list) result }
{
    let found = audit.found;
    let modules = audit.list.modules.as_slice();
    if let Some(place) = sooner(root_named(modules), found.names) {
        return Err(Refusal::Name(place));
    }
    if let Some(place) = found.values {
        return Err(Refusal::Value(place));
    }
    if let Some(place) = repeated_sibling(heap, modules)? {
        return Err(Refusal::Sibling(place));
    }
    if let Some(place) = found.empty {
        return Err(Refusal::Empty(place));
    }
    if let Some(place) = surplus(heap, model, modules)? {
        return Err(Refusal::Limit(place));
    }
    Ok(())
}
