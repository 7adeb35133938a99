// The packed format of a model: its cursor, its reader, and the laws of the format.
#![tactic(auto)]

mod cursor;
mod expression;
mod fault;
mod fields;
mod files;
mod findings;
mod laws;
mod modules;
mod places;
mod read;
mod reader;
mod repeat;
mod uses;

pub use expression::Expression;
pub use fault::{Fault, Layout};
pub use fields::{ClassField, Field, Fields, FunctionField, ModuleField, ValueField};
pub use files::{File, Listed, Listing};
pub use findings::Findings;
pub use laws::{faults_for_good, faults_in_time, reads_exactly};
pub use places::sooner;
pub use read::{Audit, DEEPEST, read_model};
pub use repeat::times;
pub use uses::{Declared, Reference, Use};
