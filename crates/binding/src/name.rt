// A name as a part of the model or of the pool of aliases.
ghost use Rattle.std.specs.Prelude.{◌≡◌, take, drop};
ghost use Rattle.binding.specs.Held.{text_of};

use references::Reference;

// Where an alias stands in the pool. All aliases lie in one pool that grows, so that a name can be copied into three tables and
// is a slice of the pool or of the model.
#[derive(Clone, Copy, Debug, PartialEq, Eq)]
pub struct Part {
    pub start: usize,
    pub len: usize,
}

#[derive(Clone, Copy, Debug, PartialEq, Eq)]
pub enum Name<'a> {
    Model(&'a [u8]),
    Alias(Part),
}

// A name that is proposed for a root, as its bytes or by its place in the pool, and its number among the proposals.
#[derive(Drop)]
pub(crate) struct Proposal<T> {
    pub(crate) name: T,
    pub(crate) number: usize,
}

// A name, and the module and root attribute that it is bound to.
#[derive(Clone, Copy, Debug, PartialEq, Eq)]
pub struct Entry<'a> {
    pub name: Name<'a>,
    pub target: Reference<'a>,
}

// The bindings of a file, in the order in which they were made, and the aliases, one behind another.
#[derive(Clone, Copy)]
pub struct Bindings<'s, 'a> {
    pub pool: &'s [u8],
    pub entries: &'s [Entry<'a>],
}

pub(crate) fn part_of(pool: &[u8], part: Part) -> &[u8]
    ensures { result.now ≡ take part.len (drop part.start pool.now) }
{
    let start = part.start.min(pool.len());
    let rest = &pool[start..];
    let len = part.len.min(rest.len());
    &rest[0..len]
}

// The bytes of a name, wherever they lie.
pub fn text_of<'s>(pool: &'s [u8], name: Name<'s>) -> &'s [u8]
    ensures { result.now ≡ text_of pool.now name.entry }
{
    match name {
        Name::Model(text) => text,
        Name::Alias(part) => part_of(pool, part),
    }
}
