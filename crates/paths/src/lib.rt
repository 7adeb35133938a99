//! The paths by which the modules of a package import each other.

#![tactic(auto)]

mod laws;
mod relative;

pub use laws::{paths_read, paths_resolve, texts_resolve, worked_cases};
pub use relative::append_relative;
