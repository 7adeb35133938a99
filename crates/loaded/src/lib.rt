//! What the names of a file are worth, for every model that loads.

#![tactic(auto)]

mod laws;

pub use laws::names_of_loaded;
