//! What joins the agents of a specification (Z.101: channel, connection, signal list, valid input signal set): from its
//! definitions to the network whose paths `build_routes` follows, and the names in it that stand for nothing.
//!
//! `specs/Seen` says what stands in a list of signals, `specs/Lists` so of the lists that have names, and
//! `specs/Processes` of what a process inputs, saves or has in its signal sets by name, and of its timers.
//! `specs/Network` says what the network of a specification is, by the tables of its definitions and by what each name
//! stands for in its scope. The public functions answer just these, and note exactly the faults of their lists.
#![tactic(auto)]

mod agents;
mod connects;
pub mod laws;
mod lists;
mod mentions;
mod network;
mod paths;
mod processes;
mod seen;

pub use lists::{named_lists, note_lists};
pub use network::{network_of, note_network};
pub use processes::{add_processes, note_processes, scope_of};
pub use seen::{Seen, note_unknown, path_at, seen_at};
