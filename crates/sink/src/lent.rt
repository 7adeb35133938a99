//! A sink that is lent by `&mut` serves as a sink.

use crate::meaning::{Refusal, Sink};

impl<S: Sink> Sink for &mut S {
    ghost taken = { λ s. S.Sink.taken s.now };

    ghost takes = { λ s. S.Sink.takes s.now };

    ghost lawful = { record { none = λ s. S.Sink.lawful.none s.now; front = λ s. S.Sink.lawful.front s.now; plain = λ s. S.Sink.lawful.plain s.now } };

    fn offer(&mut self, line: &[u8]) -> Result<(), Refusal> {
        (**self).offer(line)
    }

    fn count(&self) -> usize {
        (**self).count()
    }
}
