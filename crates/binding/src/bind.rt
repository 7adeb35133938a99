// Binding all names of a file.
ghost use Rattle.std.specs.Prelude.{map, IfOk};
ghost use Rattle.model.specs.Steps.{declared_of};
ghost use Rattle.references.specs.References.{name_of as declared_name, pair_of};
ghost use Rattle.binding.specs.Named.{BindsNames};
ghost use Rattle.binding.specs.Sound.{Declares};

use crate::binder::Binder;
use crate::fault::Fault;
use crate::names::Names;
use model::Declared;
use references::{Reference, split_root};
use std::alloc::{AllocError, Global};
use std::collections::BTreeMap;

// The declared names, each bound to itself in the own module.
fn declare<'a>(
    heap: Global,
    own: &'a [u8],
    declared: &[Declared<'a>],
) -> Result<Binder<'a>, AllocError>
    ensures { IfOk result (λ s. Declares own.now (map declared_name (map declared_of declared.now)) s) }
{
    let mut binder = Binder::new(heap);
    for d in declared {
        binder.declare(own, d.name)?;
    }
    Ok(binder)
}

// The names of a file that declares and refers to these, the references in their order. The own module and what it declares come
// from different calls, so they are two arguments.
pub fn bind_names<'a>(
    heap: Global,
    own: &'a [u8],
    declared: &[Declared<'a>],
    references: &[Reference<'a>],
) -> Result<Names<'a>, Fault<'a>>
    ensures { BindsNames own.now (map declared_name (map declared_of declared.now)) (map pair_of references.now) result }
{
    let mut binder = declare(heap, own, declared)?;
    let mut renaming = BTreeMap::new(heap);
    for r in references {
        let (root, _) = split_root(r.name);
        let target = Reference {
            from: r.from,
            name: root,
        };
        let Some(name) = binder.bind(heap, target)? else {
            return Err(Fault::Exhausted(*r));
        };
        renaming.insert(*r, name)?;
    }
    Ok(Names {
        pool: binder.pool,
        entries: binder.entries,
        renaming,
    })
}
