//! The sink that compares.

ghost use Rattle.std.specs.Prelude.{◌≡◌, [], ◌∷◌, Decides};
ghost use Rattle.sink.specs.Compares.{compared_taken, compared_takes, expected_rest, expected_text};
ghost use Rattle.sink.specs.Lawful.{matching_laws};
ghost use Rattle.sink.specs.Sinks.{Offered, Same};
ghost use Rattle.sink.specs.Texts.{Matching};

use crate::compare::ComparingSink;
use crate::meaning::{Refusal, Sink};
use crate::plain::is_plain;

// Whether the run of this line, written with its newline, is a beginning of the text.
fn begins_line(text: &[u8], line: &[u8]) -> bool
    ensures { Decides result (Matching text.now (line.now ∷ [])) }
{
    // looked at first, so that a line that is to end elsewhere is not walked over
    if text.get(line.len()) != Some(&b'\n') {
        return false;
    }
    match text.strip_prefix(line) {
        Some([b'\n', ..]) => is_plain(line),
        _ => false,
    }
}

impl<'a> ComparingSink<'a> {
    /// A sink with no line yet. It would take exactly the runs that, each line with a newline, are a beginning of the
    /// expected text.
    pub fn new(expected: &'a [u8]) -> ComparingSink<'a>
        ensures none { compared_taken result ≡ [] }
        ensures runs { Same (compared_takes result) (Matching expected.now) }
        ensures text { expected_text result ≡ expected.now }
    {
        ComparingSink {
            expected,
            at: 0,
            lines: 0,
        }
    }
}

impl<'a> Sink for ComparingSink<'a> {
    ghost taken = { compared_taken };

    ghost takes = { compared_takes };

    ghost lawful = { matching_laws expected_rest };

    // The expected text stays, which the two values alone do not tell where a rest without a newline is left.
    fn offer(&mut self, line: &[u8]) -> Result<(), Refusal>
        ensures answer { Offered compared_taken compared_takes self.old line.now result self.new }
        ensures same_text { expected_text self.new ≡ expected_text self.old }
    {
        if !begins_line(&self.expected[self.at..], line) {
            return Err(Refusal);
        }
        self.at += line.len() + 1;
        self.lines += 1;
        Ok(())
    }

    fn count(&self) -> usize {
        self.lines
    }
}
