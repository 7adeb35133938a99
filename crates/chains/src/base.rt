//! Where a module's imports count from.

ghost use Rattle.std.specs.Prelude.{◌≡◌};
ghost use Rattle.chains.specs.Chains.{base_of};

/// The package from which an import counts its leading dots, in the module with this dotted name.
pub fn base_of(own: &[u8], package: bool) -> &[u8]
    ensures { result.now ≡ base_of own.now «package» }
{
    if package {
        return own;
    }
    match own.iter().rposition(|b| *b == b'.') {
        Some(dot) => &own[..dot],
        None => &[],
    }
}
