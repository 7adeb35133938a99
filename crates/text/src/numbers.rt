//! Integers and floats in decimal.

ghost use Rattle.std.specs.Prelude.{◌≡◌, Decides};
ghost use Rattle.text.specs.Numbers.{Float, Int, float, int, some_digits, unsigned};

/// What follows an optional `-`.
fn after_sign(s: &[u8]) -> &[u8]
    ensures { result.now ≡ unsigned s.now }
{
    s.strip_prefix(b"-").unwrap_or(s)
}

fn are_some_digits(s: &[u8]) -> bool
    ensures { result ≡ some_digits s.now }
{
    !s.is_empty() && s.iter().all(u8::is_ascii_digit)
}

/// An integer: an optional `-`, and then `0` or digits that do not start with 0. So `-0` is one.
pub fn is_int(s: &[u8]) -> bool
    ensures value { result ≡ int s.now }
    ensures decides { Decides result (Int s.now) }
{
    let magnitude = after_sign(s);
    match magnitude {
        [b'0', rest @ ..] => rest.is_empty(),
        _ => are_some_digits(magnitude),
    }
}

/// A float: an optional `-`, and then one or more digits on both sides of a dot. Zeros may stand anywhere.
pub fn is_float(s: &[u8]) -> bool
    ensures value { result ≡ float s.now }
    ensures decides { Decides result (Float s.now) }
{
    let magnitude = after_sign(s);
    match magnitude.iter().position(|b| *b == b'.') {
        Some(dot) => are_some_digits(&magnitude[..dot]) && are_some_digits(&magnitude[dot + 1..]),
        None => false,
    }
}
