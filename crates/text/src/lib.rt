//! The rules on bytes by which a stub file for Python is written: names, numbers and UTF-8.

#![tactic(auto)]

mod names;
mod numbers;
mod utf8;

pub use names::{is_dotted_name, is_identifier};
pub use numbers::{is_float, is_int};
pub use utf8::is_utf8;
