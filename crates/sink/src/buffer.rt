//! What a sink into a buffer holds.

ghost use Rattle.std.specs.Prelude.{◌≡◌, ◌≤◌, length, vec_len, vec_capacity};
ghost use Rattle.sink.specs.Texts.{Whole, lines_in};

/// A sink that keeps the lines, each with a newline, in a buffer whose size is fixed at its making.
#[derive(Drop)]
pub struct BufferSink {
    // the lines taken, each with a newline
    pub(crate) text: Vec<u8>,
    // how long the text may become; its capacity cannot say so, since an append may raise that
    pub(crate) size: usize,
    // how many lines are taken, so that `count` walks over no text: a walk takes a millisecond for each megabyte
    pub(crate) lines: usize,
    ghost whole: { Whole text.items },
    ghost counted: { lines ≡ length (lines_in text.items) },
    ghost within: { vec_len text ≤ size },
    // so that no offer wants memory
    ghost reserved: { size ≤ vec_capacity text },
}
