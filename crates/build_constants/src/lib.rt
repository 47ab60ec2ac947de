//! What the constant expressions of a specification come to (Z.101: process; Z.102: variable definition, timer; Z.104:
//! synonyms).
//!
//! A process has constants at three kinds of places: the numbers of its instances, what its variables begin with, and
//! the default durations of its timers. Each is a constant expression in the sort of its place, so it has the faults
//! and the value that `build_expressions` says; `specs/Counts` has the conditions on the numbers of instances besides.
//! `specs/ConstantTable` has the constants of the whole specification, each in the names of the scope that it stands
//! in: synonyms first, since all others may name them. Together the processes may have 1,000 instances at the start.
//! `specs/Broken` says of the words of the text which rules are broken, and `laws` that the lists say the same.
#![tactic(auto)]

mod constant_table;
mod counts;
mod durations;
mod initials;
pub mod laws;
mod limit;
mod process_counts;
mod scope;
mod settled_synonyms;
mod synonyms;
mod timers;
mod variables;

pub use constant_table::ConstantTable;
pub use counts::{InstanceCounts, instance_counts};
pub use scope::scope_at;
pub use timers::default_duration;
pub use variables::initial_value;
