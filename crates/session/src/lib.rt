// A session: it loads a packed model and answers what it holds.
#![tactic(auto)]

mod calls;
mod fault;
mod local;
mod state;

pub use fault::Fault;
pub use state::Session;
