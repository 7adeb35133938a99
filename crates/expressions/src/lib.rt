// The text of expressions.
#![tactic(auto)]

mod laws;

pub use laws::worked_cases;
