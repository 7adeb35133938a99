// The name that follows a name, by which a name that is taken gives way to others.
#![tactic(auto)]

mod laws;
mod next;

pub use laws::{cases_hold, proposals_differ, proposals_shaped};
pub use next::{append_next, next_name, split_number};
