//! The sink into a buffer.

ghost use Rattle.std.specs.Prelude.{◌≡◌, ◌+◌, ◌<◌, ◌≤◌, [], ◌∷◌, ◌++◌, length, IfOk, vec_len, vec_capacity, Decides};
ghost use Rattle.sink.specs.Buffers.{buffer_room, buffer_taken, buffer_takes};
ghost use Rattle.sink.specs.Lawful.{fitting_laws};
ghost use Rattle.sink.specs.Sinks.{Same};
ghost use Rattle.sink.specs.Texts.{Fitting, written};

use crate::buffer::BufferSink;
use crate::meaning::{Refusal, Sink};
use crate::plain::is_plain;
use std::alloc::{AllocError, Global};

// Whether the run of this line, written with its newline, fits into so many bytes.
fn fits_line(room: usize, line: &[u8]) -> bool
    ensures { Decides result (Fitting room (line.now ∷ [])) }
{
    line.len() < room && is_plain(line)
}

// Appends the line and a newline, for which there is room.
fn append_line(text: &mut Vec<u8>, line: &[u8])
    requires { vec_len text.old + length line.now < vec_capacity text.old }
    ensures items { text.new.items ≡ text.old.items ++ (line.now ++ (10 ∷ [])) }
    ensures len { vec_len text.new ≡ vec_len text.old + (length line.now + 1) }
    ensures capacity { vec_capacity text.old ≤ vec_capacity text.new }
{
    text.extend_from_slice(line).unwrap();
    text.push_reserved(b'\n');
}

impl BufferSink {
    /// A sink with no line yet. It would take exactly the runs that, each line with a newline, fit into `size` bytes.
    pub fn new(heap: Global, size: usize) -> Result<BufferSink, AllocError>
        ensures { IfOk result (λ s. (buffer_taken s ≡ []) × Same (buffer_takes s) (Fitting size)) }
    {
        let text = Vec::with_capacity(heap, size)?;
        Ok(BufferSink {
            text,
            size,
            lines: 0,
        })
    }

    /// The lines taken, each with a newline.
    pub fn text(&self) -> &[u8]
        ensures { result.now ≡ written (buffer_taken self.now) }
    {
        self.text.as_slice()
    }
}

impl Sink for BufferSink {
    ghost taken = { buffer_taken };

    ghost takes = { buffer_takes };

    ghost lawful = { fitting_laws buffer_room };

    fn offer(&mut self, line: &[u8]) -> Result<(), Refusal> {
        let room = self.size - self.text.len();
        if !fits_line(room, line) {
            return Err(Refusal);
        }
        append_line(&mut self.text, line);
        self.lines += 1;
        Ok(())
    }

    fn count(&self) -> usize {
        self.lines
    }
}
