//! Identifiers, and identifiers joined by dots.

ghost use Rattle.std.specs.Prelude.{◌≡◌, [], map, if◌then◌else◌, Decides};
ghost use Rattle.std.specs.Str.{bytes_eq};
ghost use Rattle.text.specs.Names.{Dotted, Identifier, among, dotted, first_byte, identifier, keyword, later_byte, parts, spelled};

const LONGEST_IDENTIFIER: usize = 64;

const LONGEST_DOTTED_NAME: usize = 255;

/// Python's keywords, which are spelled like identifiers and are none.
const KEYWORDS: [&[u8]; 35] = [
    b"False",
    b"None",
    b"True",
    b"and",
    b"as",
    b"assert",
    b"async",
    b"await",
    b"break",
    b"class",
    b"continue",
    b"def",
    b"del",
    b"elif",
    b"else",
    b"except",
    b"finally",
    b"for",
    b"from",
    b"global",
    b"if",
    b"import",
    b"in",
    b"is",
    b"lambda",
    b"nonlocal",
    b"not",
    b"or",
    b"pass",
    b"raise",
    b"return",
    b"try",
    b"while",
    b"with",
    b"yield",
];

/// A byte of an identifier: a digit may not come first.
// By ranges with a guard for the first byte, so that the class stands here as its rule has it.
fn is_name_byte(b: u8, first: bool) -> bool
    ensures { result ≡ (if first then first_byte b else later_byte b) }
{
    match b {
        b'a'..=b'z' | b'A'..=b'Z' | b'_' => true,
        b'0'..=b'9' if !first => true,
        _ => false,
    }
}

/// At least one byte, and each one may stand where it does in an identifier.
fn is_spelled(s: &[u8]) -> bool
    ensures { result ≡ spelled s.now }
{
    match s {
        [] => false,
        [first, later @ ..] => is_name_byte(*first, true)
            && later.iter().all(|b| is_name_byte(*b, false)),
    }
}

fn is_keyword(s: &[u8]) -> bool
    ensures { result ≡ keyword s.now }
{
    // by `any`, which is inlined: `contains` is a call for each word, and each name of a model comes here
    KEYWORDS.iter().any(|word| *word == s)
}

/// A Python identifier of ASCII letters, digits and `_`: 1 to 64 bytes that start with no digit and are no keyword.
pub fn is_identifier(s: &[u8]) -> bool
    ensures value { result ≡ identifier s.now }
    ensures decides { Decides result (Identifier s.now) }
{
    s.len() <= LONGEST_IDENTIFIER && is_spelled(s) && !is_keyword(s)
}

/// A dotted name: identifiers joined by single dots, at most 255 bytes in all.
pub fn is_dotted_name(s: &[u8]) -> bool
    ensures value { result ≡ dotted s.now }
    ensures decides { Decides result (Dotted s.now) }
{
    s.len() <= LONGEST_DOTTED_NAME && s.split(|b| *b == b'.').all(is_identifier)
}
