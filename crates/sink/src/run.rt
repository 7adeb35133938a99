//! A run of lines, offered to any sink.

ghost use Rattle.std.specs.Prelude.{Some, ◌++◌, codes, decimal, map};
ghost use Rattle.sink.specs.Sinks.{OfferedAll};

use crate::meaning::{Refusal, Sink};
use std::error::Error;
use std::fmt;

/// The line behind so many of a run was not taken.
#[derive(Clone, Copy, Debug, PartialEq, Eq, Hash)]
pub struct RunRefusal {
    pub taken: usize,
}

// By hand, since its contract is the text.
impl fmt::Display for RunRefusal {
    ghost output = { λ r. Some (codes "refused after " ++ decimal r.taken) };

    fn fmt<W: fmt::Write>(&self, f: &mut fmt::Formatter<W>) -> fmt::Result {
        write!(f, "refused after {}", self.taken)
    }
}

impl Error for RunRefusal {}

/// Offers the lines in turn, up to the first that is refused: all are taken as one run, or the answer is how many were.
pub fn offer_all<S: Sink>(sink: &mut S, lines: &[&[u8]]) -> Result<(), RunRefusal>
    ensures { OfferedAll S.taken S.takes sink.old (map (λ x. x.now) lines.now) result sink.new }
{
    // the index is the answer, so no chain is plainer
    for (taken, line) in lines.iter().enumerate() {
        if let Err(Refusal) = sink.offer(line) {
            return Err(RunRefusal { taken });
        }
    }
    Ok(())
}
