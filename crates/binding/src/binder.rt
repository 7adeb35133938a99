// Bindings as they are made, with indexes by name and by target.
ghost use Rattle.std.specs.Prelude.{◌≡◌, true, [], length, is_some, IfOk, None, OnOk};
ghost use Rattle.references.specs.References.{pair_of};
ghost use Rattle.binding.specs.Binding.{find, name_of};
ghost use Rattle.binding.specs.Sound.{Indexed, Sound, Enters, Binds, Shows, OnlyDeclared, DeclaresOne, Reached, Comes, FreeAlias, pool_of, bindings_in};

use crate::name::{Entry, Name, Part, Proposal, part_of};
use naming::next_name;
use references::Reference;
use std::alloc::{AllocError, Global};
use std::collections::{BTreeMap, BTreeSet};

// That the indexes hold what the bindings say stands in the contracts. It can be no ghost field: where an insert fails, those
// before it are made already, and a ghost field has to hold at that `?` too. The allocator is handed to the steps that allocate,
// as it is to the library's calls.
#[derive(Drop)]
pub(crate) struct Binder<'a> {
    pub(crate) pool: Vec<u8>,
    pub(crate) entries: Vec<Entry<'a>>,
    // the name of each target
    targets: BTreeMap<Reference<'a>, Name<'a>>,
    // the bound names that are parts of the model, and those that are aliases
    names: BTreeSet<&'a [u8]>,
    aliases: BTreeSet<Vec<u8>>,
    // the last alias that a root has got, where the search goes on: all proposals up to that one are bound
    lasts: BTreeMap<&'a [u8], Proposal<Part>>,
}

impl<'a> Binder<'a> {
    pub(crate) fn new(heap: Global) -> Binder<'a>
        ensures none { bindings_in result ≡ [] }
        ensures indexed { Indexed result }
    {
        Binder {
            pool: Vec::new(heap),
            entries: Vec::new(heap),
            targets: BTreeMap::new(heap),
            names: BTreeSet::new(heap),
            aliases: BTreeSet::new(heap),
            lasts: BTreeMap::new(heap),
        }
    }

    fn is_bound(&self, name: &[u8]) -> bool
        requires { Indexed self.now }
        ensures { result ≡ is_some (find (bindings_in self.now) name.now) }
    {
        self.names.contains(name) || self.aliases.contains(name)
    }

    // The name that a target has.
    fn known(&self, target: Reference<'a>) -> Option<Name<'a>>
        requires { Indexed self.now }
        ensures { Shows (pool_of self.now) result (name_of (bindings_in self.now) (pair_of target.entry)) }
    {
        self.targets.get(&target).copied()
    }

    // A proposal for the root, which is bound, up to which all are bound, and its number.
    fn start(&self, heap: Global, root: &[u8]) -> Result<Proposal<Vec<u8>>, AllocError>
        requires indexed { Indexed self.now }
        requires held { is_some (find (bindings_in self.now) root.now) ≡ true }
        ensures { IfOk result (λ p. Reached (bindings_in self.now) root.now p.name.items p.number) }
    {
        match self.lasts.get(root) {
            Some(last) => {
                let name = Vec::from_slice(heap, part_of(self.pool.as_slice(), last.name))?;
                Ok(Proposal {
                    name,
                    number: last.number,
                })
            }
            None => {
                let name = Vec::from_slice(heap, root)?;
                Ok(Proposal { name, number: 0 })
            }
        }
    }

    // The first name after the root, which is bound, that is bound to nothing, and its number among the proposals.
    fn free_alias(&self, heap: Global, root: &[u8]) -> Result<Option<Proposal<Vec<u8>>>, AllocError>
        requires indexed { Indexed self.now }
        requires held { is_some (find (bindings_in self.now) root.now) ≡ true }
        ensures { IfOk result (λ o. FreeAlias (bindings_in self.now) root.now (length self.now.entries.items) o) }
    {
        let count = self.entries.len();
        let Proposal { mut name, number } = self.start(heap, root)?;
        for n in number..count {
            let Some(next) = next_name(heap, name.as_slice())? else {
                return Ok(None);
            };
            if !self.is_bound(next.as_slice()) {
                return Ok(Some(Proposal {
                    name: next,
                    number: n + 1,
                }));
            }
            name = next;
        }
        Ok(None)
    }

    // Binds the root itself, which is free.
    fn enter_root(&mut self, target: Reference<'a>) -> Result<Name<'a>, AllocError>
        requires indexed { Indexed self.old }
        requires unnamed { name_of (bindings_in self.old) (pair_of target) ≡ None }
        ensures { IfOk result (λ n. Enters self.old (pair_of target.entry).1 (pair_of target.entry) n self.new) }
    {
        let name = Name::Model(target.name);
        self.names.insert(target.name)?;
        self.targets.insert(target, name)?;
        self.entries.push(Entry { name, target })?;
        Ok(name)
    }

    // Binds an alias, which is free and has this number among the proposals for the root.
    fn enter_alias(
        &mut self,
        target: Reference<'a>,
        alias: Proposal<Vec<u8>>,
    ) -> Result<Name<'a>, AllocError>
        requires indexed { Indexed self.old }
        requires unnamed { name_of (bindings_in self.old) (pair_of target) ≡ None }
        requires comes { Comes (bindings_in self.old) (pair_of target).1 alias.name.items alias.number }
        ensures { IfOk result (λ n. Enters self.old alias.name.items (pair_of target.entry) n self.new) }
    {
        let Proposal {
            name: bytes,
            number,
        } = alias;
        let part = Part {
            start: self.pool.len(),
            len: bytes.len(),
        };
        self.pool.extend_from_slice(bytes.as_slice())?;
        let name = Name::Alias(part);
        self.aliases.insert(bytes)?;
        self.lasts
            .insert(target.name, Proposal { name: part, number })?;
        self.targets.insert(target, name)?;
        self.entries.push(Entry { name, target })?;
        Ok(name)
    }

    // The name of a target, which is bound now where it was not. None where the proposals for it come to an end.
    pub(crate) fn bind(
        &mut self,
        heap: Global,
        target: Reference<'a>,
    ) -> Result<Option<Name<'a>>, AllocError>
        requires { Sound self.old }
        ensures { IfOk result (λ o. Binds self.old (pair_of target.entry) o self.new) }
    {
        if let Some(known) = self.known(target) {
            return Ok(Some(known));
        }
        if !self.is_bound(target.name) {
            let root = self.enter_root(target)?;
            return Ok(Some(root));
        }
        let Some(alias) = self.free_alias(heap, target.name)? else {
            return Ok(None);
        };
        let name = self.enter_alias(target, alias)?;
        Ok(Some(name))
    }

    // Binds a declared name to itself in the own module, unless it is declared already.
    pub(crate) fn declare(&mut self, own: &'a [u8], name: &'a [u8]) -> Result<(), AllocError>
        requires { OnlyDeclared own.now self.old }
        ensures { OnOk result (DeclaresOne own.now name.now self.old self.new) }
    {
        if self.is_bound(name) {
            return Ok(());
        }
        self.enter_root(Reference { from: own, name })?;
        Ok(())
    }
}
