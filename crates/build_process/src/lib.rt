//! A process of a system, whole: what its text says, which rules are broken in it, and what its instances are made of
//! (Z.101: process, start, state, input, connection; Z.102: transition).
//!
//! `specs/Bodies` has the bodies of its transitions and the rules that are broken in them. `transitions_of` notes exactly
//! these, and where no rule on transitions, labels and ends is broken, its nodes are the table of the bodies: all nodes of
//! the process, and the node at which each transition begins. Paths without a terminator are noted by `build_flow`, and
//! labels have the numbers that the caller gives them.
//!
//! `specs/Faulty` has the rules that are broken in the states and transitions of a process, and `specs/Meant` what the
//! process does, as plain data. `make_process` notes exactly the faults of the one, and a process that it makes means
//! the other. What stands around the process, and what its heading says, the caller gives.
#![tactic(auto)]

mod added;
mod condition;
mod heading;
pub mod laws;
mod making;
mod process;
mod process_scope;
mod transitions;

pub use heading::Heading;
pub use process::make_process;
pub use process_scope::ProcessScope;
