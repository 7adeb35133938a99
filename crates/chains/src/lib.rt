//! The names of the modules that a model's files stand for, and the bases that their imports count from.

#![tactic(auto)]

mod base;
mod laws;
mod modules;

pub use base::base_of;
pub use laws::{bases_lead, imports_resolve, modules_reached, worked_cases};
pub use modules::{Loaded, is_package};
