//! The lines by which a file imports what its names are bound to.

#![tactic(auto)]

mod laws;
mod lines;

pub use laws::{lines_import, lines_tell, worked_cases};
pub use lines::import_lines;
