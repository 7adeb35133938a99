// The resolver: what every reference of a file is called in it.
#![tactic(auto)]

mod fault;
mod names;

pub use fault::Fault;
pub use names::resolve;
