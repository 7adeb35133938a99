//! A module's path from another.

ghost use Rattle.std.specs.Prelude.{◌≡◌, ◌≢◌, ℕ, ◌<◌, ◌≤◌, ◌⊎◌, ◌==◌, ◌++◌, length, slice_index, Decides, IfSome, MatchOption, OnOk};
ghost use Rattle.std.specs.List.{common_prefix_len};
ghost use Rattle.paths.specs.Paths.{relative_text};
ghost use Rattle.paths.specs.Shared.{dots_in, shared};

use std::alloc::AllocError;

/// How many leading bytes both have in common.
fn common_len(base: &[u8], target: &[u8]) -> usize
    ensures { result ≡ common_prefix_len (λ b t. b == t) base.now target.now }
{
    base.iter().zip(target).take_while(|(b, t)| b == t).count()
}

/// Whether a part of the name ends there: at a dot or at the end.
fn ends_part(name: &[u8], at: usize) -> bool
    ensures { Decides result ((length name.now ≤ at) ⊎ (slice_index name.now at ≡ 46)) }
{
    name.get(at).is_none_or(|b| *b == b'.')
}

/// Where the last dot of the name stands.
fn last_dot(name: &[u8]) -> Option<usize>
    ensures { MatchOption result ((k : ℕ) → k < length name.now → slice_index name.now k ≢ 46) (λ i. (i < length name.now) × (slice_index name.now i ≡ 46) × ((k : ℕ) → i < k → k < length name.now → slice_index name.now k ≢ 46)) }
{
    name.iter().rposition(|b| *b == b'.')
}

/// Where the leading parts that both have in common end, in both: at a dot or at the end. `None` where they share none.
fn shared_end(base: &[u8], target: &[u8]) -> Option<usize>
    ensures value { result ≡ shared base.now target.now }
    ensures fits { IfSome result (λ m. (m ≤ length base.now) × (m ≤ length target.now)) }
{
    let same = common_len(base, target);
    if ends_part(base, same) && ends_part(target, same) {
        return Some(same);
    }
    last_dot(&base[..same])
}

/// Appends a dot for each one in `name`.
fn append_dots(out: &mut Vec<u8>, name: &[u8]) -> Result<(), AllocError>
    ensures { OnOk result (out.new.items ≡ out.old.items ++ dots_in name.now) }
{
    out.extend(name.iter().copied().filter(|b| *b == b'.'))
}

/// Appends the path of the module `target` as an import writes it that counts from the package `base`.
pub fn append_relative(out: &mut Vec<u8>, base: &[u8], target: &[u8]) -> Result<(), AllocError>
    ensures { OnOk result (out.new.items ≡ out.old.items ++ relative_text base.now target.now) }
{
    let Some(end) = shared_end(base, target) else {
        return out.extend_from_slice(target);
    };
    out.push(b'.')?;
    append_dots(out, &base[end..])?;
    if end < target.len() {
        out.extend_from_slice(&target[end + 1..])?;
    }
    Ok(())
}
