// The calls that a session answers.
ghost use Rattle.commands.specs.Calls.{Means};

// A call, as its line writes it; the digits of a model are not read yet. What is no call is a case and no None, since it has an
// answer of its own.
#[derive(Clone, Copy, Debug, PartialEq, Eq)]
pub enum Call<'a> {
    Load(&'a [u8]),
    Count,
    Unknown,
}

// The call of a line, which has no newline.
pub(crate) fn call_of(line: &[u8]) -> Call<'_>
    ensures { Means line.now result }
{
    match line {
        b"load" => Call::Load(&[]),
        b"count" => Call::Count,
        _ => match line.strip_prefix(b"load ") {
            Some(digits) if !digits.is_empty() && !digits.contains(&b' ') => Call::Load(digits),
            _ => Call::Unknown,
        },
    }
}
