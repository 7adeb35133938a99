//! How much of an expected text has come.

ghost use Rattle.std.specs.Prelude.{◌≡◌, length, Decides};
ghost use Rattle.sink.specs.Compares.{compared_taken, expected_text};
ghost use Rattle.sink.specs.Texts.{written};

use crate::compare::ComparingSink;

impl<'a> ComparingSink<'a> {
    /// Whether the whole expected text has come: the lines taken, each with a newline, are that text.
    pub fn is_complete(&self) -> bool
        ensures { Decides result (written (compared_taken self.now) ≡ expected_text self.now) }
    {
        self.matched() == self.expected.len()
    }

    /// How long the lines taken are, each with a newline. What a function over any sink ensures leaves the expected text
    /// open; a caller who has that text tells by this length whether all of it came.
    pub fn matched(&self) -> usize
        ensures { result ≡ length (written (compared_taken self.now)) }
    {
        self.at
    }
}
