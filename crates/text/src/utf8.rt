//! UTF-8 by RFC 3629.

ghost use Rattle.std.specs.Prelude.{◌≡◌, Decides};
ghost use Rattle.text.specs.Utf8.{Utf8, utf8};

/// UTF-8: whole characters, each as short as it can be, and no surrogates.
pub fn is_utf8(s: &[u8]) -> bool
    ensures value { result ≡ utf8 s.now }
    ensures decides { Decides result (Utf8 s.now) }
{
    std::str::from_utf8(s).is_ok()
}
