// The verdict on a model: every rule that loading judges, in the order of their numbers.
#![tactic(auto)]

mod judge;
mod refusal;
mod rules;

pub use judge::judge_model;
pub use refusal::Refusal;
