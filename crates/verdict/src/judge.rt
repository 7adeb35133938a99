// Judging a model.
ghost use Rattle.verdict.specs.Judged.{Judges};

use crate::refusal::Refusal;
use crate::rules::check;
use model::{File, read_model};
use std::alloc::Global;

// The longest model, in bytes.
const LONGEST: usize = 16384;

// The files of a model that meets every rule, or the refusal that the rules give.
pub fn judge_model(heap: Global, model: &[u8]) -> Result<Vec<File>, Refusal>
    ensures { Judges model.now result }
{
    if model.is_empty() || model.len() > LONGEST {
        return Err(Refusal::Size);
    }
    let audit = read_model(heap, model)?;
    check(heap, model, &audit)?;
    // the model's names are gone when its files are kept
    let files = audit
        .list
        .modules
        .iter()
        .map(|module| module.file)
        .collect(heap)?;
    Ok(files)
}
