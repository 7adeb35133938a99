// What a file refers to and what it declares, by parts of the model.

// An attribute of a module. The derived order is that of the bytes: by the module, then by the attribute.
#[derive(Clone, Copy, Debug, PartialEq, Eq, PartialOrd, Ord)]
pub struct Reference<'a> {
    pub from: &'a [u8],
    pub name: &'a [u8],
}

// A reference, at the place of the expression that is it.
#[derive(Clone, Copy, Debug, PartialEq, Eq)]
pub struct Use<'a> {
    pub place: usize,
    pub reference: Reference<'a>,
}

// A declared name, at the place of the record that declares it.
#[derive(Clone, Copy, Debug, PartialEq, Eq)]
pub struct Declared<'a> {
    pub place: usize,
    pub name: &'a [u8],
}
