// A name's front and number, and the name that follows it.
ghost use Rattle.std.specs.Prelude.{◌≡◌, IfOk};
ghost use Rattle.std.specs.Option.{option_map};
ghost use Rattle.std.specs.Char.{is_ascii_digit};
ghost use Rattle.std.specs.List.{suffix_len};
ghost use Rattle.std.specs.Str.Parse.{AllDigits};
ghost use Rattle.naming.specs.Next.{Appended, counted, front, next_name, number};

use std::alloc::{AllocError, Global};

// How many digits end the name.
fn digits_behind(name: &[u8]) -> usize
    ensures { result ≡ suffix_len is_ascii_digit name.now }
{
    name.iter().rev().take_while(|b| b.is_ascii_digit()).count()
}

// How many bytes stand before the digits that end the name.
#[tactic(auto, using(crate::proofs::Fronts::digits_within), unfolding(crate::specs::Next::front))]
fn front_of(name: &[u8]) -> usize
    ensures { result ≡ front name.now }
{
    name.len() - digits_behind(name)
}

// What digits count as: none, and too many for the number, as 1.
fn read_number(digits: &[u8]) -> u64
    requires { AllDigits 10 digits.now }
    ensures { result ≡ counted digits.now }
{
    match std::str::from_utf8(digits) {
        Ok(text) => text.parse().unwrap_or(1),
        Err(_) => 1,
    }
}

// How many bytes stand before the digits that end the name, and what those digits count as: whoever goes on from a name wants
// both, so they are a pair.
pub fn split_number(name: &[u8]) -> (usize, u64)
    ensures front { result.0 ≡ front name.now }
    ensures number { result.1 ≡ number name.now }
{
    let at = front_of(name);
    (at, read_number(&name[at..]))
}

// Appends the next name to `out`, or answers false and leaves `out` as it is where there is none. It is for a caller that gathers
// names in one buffer.
pub fn append_next(heap: Global, out: &mut Vec<u8>, name: &[u8]) -> Result<bool, AllocError>
    ensures { IfOk result (λ b. Appended (next_name name.now) b out.old.items out.new.items) }
{
    let (at, last) = split_number(name);
    let Some(next) = last.checked_add(1) else {
        return Ok(false);
    };
    let digits = format!(in heap; "{next}")?;
    out.extend_from_slice(&name[..at])?;
    out.extend_from_slice(digits.as_bytes())?;
    Ok(true)
}

// The name that follows the name, where there is one.
pub fn next_name(heap: Global, name: &[u8]) -> Result<Option<Vec<u8>>, AllocError>
    ensures { IfOk result (λ next. option_map (λ w. w.items) next ≡ next_name name.now) }
{
    let mut next = Vec::new(heap);
    let found = append_next(heap, &mut next, name)?;
    Ok(found.then_some(next))
}
