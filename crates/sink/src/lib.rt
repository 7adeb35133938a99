//! Sinks: what takes lines, and which lines it takes.

#![tactic(auto)]

mod buffer;
mod buffering;
mod compare;
mod comparing;
mod laws;
mod lent;
mod meaning;
mod plain;
mod progress;
mod run;

pub use buffer::BufferSink;
pub use compare::ComparingSink;
pub use laws::texts_end;
pub use meaning::{Refusal, Sink};
pub use run::{RunRefusal, offer_all};
