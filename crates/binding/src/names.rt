// The names of a file.
ghost use Rattle.std.specs.BTreeMap.{IsOrdered, keys};
ghost use Rattle.std.specs.List.Sorted.{IsStrictlySortedBy-prop};
ghost use Rattle.references.specs.Kept.{reference_cmp};

use crate::name::{Entry, Name};
use references::Reference;
use std::collections::BTreeMap;

// What a file binds, in the order of binding, and the bound name of each of its references. A name is a part of the model
// or of the pool.
#[derive(Drop)]
pub struct Names<'a> {
    pub(crate) pool: Vec<u8>,
    pub(crate) entries: Vec<Entry<'a>>,
    pub(crate) renaming: BTreeMap<Reference<'a>, Name<'a>>,
    ghost sorted: { IsOrdered reference_cmp renaming } by { IsStrictlySortedBy-prop reference_cmp (keys renaming) },
}
