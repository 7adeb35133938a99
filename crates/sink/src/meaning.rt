//! What a sink is.

ghost use Rattle.std.specs.Prelude.{◌≡◌, ℕ, List, Some, codes, length};
ghost use Rattle.sink.specs.Sinks.{Offered, SinkLaws};

use std::error::Error;
use std::fmt;

/// The line was not taken.
#[derive(Clone, Copy, Debug, PartialEq, Eq, Hash)]
pub struct Refusal;

// By hand, since its contract is the text.
impl fmt::Display for Refusal {
    ghost output = { λ _. Some (codes "the line is refused") };

    fn fmt<W: fmt::Write>(&self, f: &mut fmt::Formatter<W>) -> fmt::Result {
        f.write_str("the line is refused")
    }
}

impl Error for Refusal {}

/// What takes lines. It means two values: the lines taken, and the runs of further lines that it would take.
pub trait Sink {
    /// The lines taken, the first one first.
    ghost taken: { Self → List (List ℕ) };

    /// The runs of further lines that it would take.
    ghost takes: { Self → List (List ℕ) → Type 0 };

    // One member for all laws: a type with a lifetime can give a member, and no `law`.
    ghost lawful: { SinkLaws takes };

    /// Takes the line if the run of this one line would be taken, and otherwise leaves both values.
    fn offer(&mut self, line: &[u8]) -> Result<(), Refusal>
        ensures { Offered taken takes self.old line.now result self.new };

    /// How many lines are taken.
    fn count(&self) -> usize
        ensures { result ≡ length (taken self.now) };
}
