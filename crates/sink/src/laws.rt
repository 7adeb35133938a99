//! What holds of every text of lines.

ghost use Rattle.sink.specs.Texts.{TextsEnd};

/// A text of lines, each with a newline, ends in a newline if it has a byte at all. So an expected text without a last
/// newline never completes.
pub fn texts_end()
    ensures { TextsEnd }
{}
