// The walk over a model whose layout is checked: nothing is checked again, and no step owes a proof that it can be taken.
#![tactic(auto)]

mod collector;
mod cursor;
mod headers;
mod reached;
mod walker;

pub use collector::{Collected, collect};
pub use cursor::Cursor;
pub use headers::Header;
pub use reached::{files_reached, readings_agree};
