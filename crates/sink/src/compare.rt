//! What a sink that compares holds.

ghost use Rattle.std.specs.Prelude.{◌≡◌, ◌≤◌, length, take};
ghost use Rattle.sink.specs.Texts.{Whole, lines_in};

/// A sink that takes the lines of an expected text, in their order, and no others.
#[derive(Drop)]
pub struct ComparingSink<'a> {
    pub(crate) expected: &'a [u8],
    // How much of the expected text has come. In its place the rest could stand as a slice, but clauses speak of the whole
    // text too, so a fact would have to say that one slice ends the other.
    pub(crate) at: usize,
    // how many lines are taken, so that `count` walks over no text
    pub(crate) lines: usize,
    ghost within: { at ≤ length expected.now },
    ghost whole: { Whole (take at expected.now) },
    ghost counted: { lines ≡ length (lines_in (take at expected.now)) },
}
