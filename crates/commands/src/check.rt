// `pumpsooner check`: a line for each file.
ghost use Rattle.std.specs.Prelude.{Some};
ghost use Rattle.commands.specs.Checks.{ChecksFile};
ghost use Rattle.commands.specs.Texts.{verdict_text};

use crate::Undone;
use crate::report::cause;
use session::{Fault, Session};
use std::alloc::Global;
use std::env::Args;
use std::{fmt, fs};

// How many files a model has, or why it is not loaded.
#[derive(Clone, Copy)]
struct Verdict(Result<usize, Fault>);

// By hand, since its contract is the text.
impl fmt::Display for Verdict {
    ghost output = { λ v. Some (verdict_text v.0) };

    fn fmt<W: fmt::Write>(&self, f: &mut fmt::Formatter<W>) -> fmt::Result {
        match self.0 {
            Ok(files) => write!(f, "loaded, {files} files"),
            Err(fault) => {
                let cause = cause(&fault);
                match fault.told() {
                    Some((number, place)) => write!(f, "refused {number} at {place}: {cause}"),
                    None => write!(f, "not checked: {cause}"),
                }
            }
        }
    }
}

// Checks each file; one without an answer keeps none of those behind it from being checked, but a failed write stops.
pub(crate) fn files(rt: &HostRuntime, names: Args) -> Result<(), Undone> {
    let mut done = Ok(());
    for name in names {
        match file(rt, name.as_str()) {
            Err(Undone::Said) => done = Err(Undone::Said),
            other => other?,
        }
    }
    done
}

// Says of a file whether it is loaded or refused, or why there is no answer.
fn file(rt: &HostRuntime, name: &str) -> Result<(), Undone> {
    let model = match fs::read(rt, name) {
        Ok(model) => model,
        Err(e) => {
            let _ = eprintln!(rt; "{name}: cannot be read: {e}");
            return Err(Undone::Said);
        }
    };
    let verdict = Verdict(files_of(rt.alloc(), model.as_slice()));
    if let Verdict(Err(fault)) = verdict
        && fault.told().is_none()
    {
        let _ = eprintln!(rt; "{name}: {verdict}");
        return Err(Undone::Said);
    }
    println!(rt; "{name}: {verdict}")?;
    Ok(())
}

// How many files the model has, in a session of its own.
fn files_of(heap: Global, model: &[u8]) -> Result<usize, Fault>
    ensures { ChecksFile model.now result }
{
    let mut session = Session::new(heap);
    session.load(model)?;
    session.count()
}
