// Places at which keys repeat, or are too many.
ghost use Rattle.std.specs.Prelude.{◌≡◌, Some, map, IfOk};
ghost use Rattle.std.specs.Ordering.{eq_by_cmp};
ghost use Rattle.model.specs.Rules.{least, soonest as soonest_of};
ghost use Rattle.model.specs.Limits.{repeats, over, distinct_allowed};
ghost use Rattle.limits.specs.Entries.{keyed};

use crate::entry::Entry;
use model::sooner;
use std::alloc::{AllocError, Global};
use std::collections::BTreeSet;

// So many different keys are allowed.
const LIMIT: usize = 512;

// The least place so far, with one more noted.
fn noted(least: Option<usize>, place: usize) -> Option<usize>
    ensures { result ≡ soonest_of least (Some place) }
{
    sooner(least, Some(place))
}

// The least place of an entry whose key came before. The entries need not come by their places, so the loop goes on after a find.
pub(crate) fn least_repeat<E: Entry>(
    heap: Global,
    entries: &[E],
) -> Result<Option<usize>, AllocError>
    ensures { IfOk result (λ p. p ≡ least (repeats (eq_by_cmp E.Key.cmp) (map (keyed E.place_of E.key_of) entries.now))) }
{
    let mut seen = BTreeSet::new(heap);
    let mut repeat = None;
    for e in entries {
        if !seen.insert(e.key())? {
            repeat = noted(repeat, e.place());
        }
    }
    Ok(repeat)
}

// The least place at which more different keys have come than are allowed.
pub(crate) fn least_surplus<E: Entry>(
    heap: Global,
    entries: &[E],
) -> Result<Option<usize>, AllocError>
    ensures { IfOk result (λ p. p ≡ least (over (eq_by_cmp E.Key.cmp) distinct_allowed (map (keyed E.place_of E.key_of) entries.now))) }
{
    let mut seen = BTreeSet::new(heap);
    let mut surplus = None;
    for e in entries {
        // To insert moves up to as many keys as the set has, so one with too many takes in no more.
        let is_full = seen.len() > LIMIT;
        if is_full {
            surplus = noted(surplus, e.place());
            continue;
        }
        seen.insert(e.key())?;
        let too_many = seen.len() > LIMIT;
        if too_many {
            surplus = noted(surplus, e.place());
        }
    }
    Ok(surplus)
}
