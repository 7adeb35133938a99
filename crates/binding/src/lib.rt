// The names that a file binds: its declared names first, and then a name for each reference.
#![tactic(auto)]

mod bind;
mod binder;
mod fault;
mod laws;
mod lookup;
mod name;
mod names;

pub use bind::bind_names;
pub use fault::Fault;
pub use laws::{lowest_taken, names_by_number, names_tell};
pub use name::{Bindings, Entry, Name, Part, text_of};
pub use names::Names;
