// Places that may not be there.
ghost use Rattle.std.specs.Prelude.{◌≡◌};
ghost use Rattle.model.specs.Rules.{soonest as soonest_of};

// The sooner of two places; the one that is there, where one is missing.
pub fn sooner(a: Option<usize>, b: Option<usize>) -> Option<usize>
    ensures { result ≡ soonest_of a b }
{
    match (a, b) {
        (Some(p), Some(q)) => Some(p.min(q)),
        _ => a.or(b),
    }
}
