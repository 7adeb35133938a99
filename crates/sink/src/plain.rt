//! The lines that any sink may take.

ghost use Rattle.sink.specs.Sinks.{Plain};
ghost use Rattle.std.specs.Prelude.{Decides};

// Whether no byte of the line is a newline.
pub(crate) fn is_plain(line: &[u8]) -> bool
    ensures { Decides result (Plain line.now) }
{
    !line.contains(&b'\n')
}
