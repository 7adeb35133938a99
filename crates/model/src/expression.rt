// How an expression begins: its kind, with the text or the count that follows its tag. Texts are parts of the model.
#[derive(Clone, Copy, Debug, PartialEq, Eq)]
pub enum Expression<'a> {
    None,
    False,
    True,
    Int(&'a [u8]),
    Float(&'a [u8]),
    Str(&'a [u8]),
    Ellipsis,
    Name(&'a [u8]),
    Attribute,
    BinOp,
    Tuple(u16),
    List(u16),
    Subscript,
}
