//! What a file refers to: each reference once, in order, and where.

#![tactic(auto)]

mod laws;
mod places;
mod reference;
mod root;

pub use laws::references_listed;
pub use model::Reference;
pub use places::{first_use, undeclared_use};
pub use reference::ascending;
pub use root::split_root;
