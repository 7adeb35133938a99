//! The root of a dotted name.

ghost use Rattle.std.specs.Prelude.{◌≡◌};
ghost use Rattle.references.specs.References.{rest_of, root_of};

/// What stands before the first dot, and the rest from that dot on.
pub fn split_root(name: &[u8]) -> (&[u8], &[u8])
    ensures root { result.0.now ≡ root_of name.now }
    ensures rest { result.1.now ≡ rest_of name.now }
{
    let end = name.iter().position(|b| *b == b'.').unwrap_or(name.len());
    name.split_at(end)
}
