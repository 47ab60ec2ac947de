//! The states of a process as tables of a system (Z.101: state, input, save; Z.102: priority input, enabling
//! condition, continuous signal).
//!
//! What a state says of each signal stands in `build_states`, with transitions by their numbers. Here each transition
//! gets the node at which it begins, each signal its class, and each enabling condition the signals that wait for it.
//! `specs/Linked` has what a table holds, and the class of each signal where every condition is true; `specs/Meant` has
//! what a table means.
#![tactic(auto)]

mod condition;
mod continuous;
pub mod laws;
mod reaction;
mod reactions;
mod selection;
mod state;
mod table;
mod table_parts;
mod waiting;

pub use state::{Tables, make_tables};
pub use table::make_table;
pub use table_parts::TableParts;
