//! What each state of a process says of each signal (Z.101: state, asterisk state list; Z.102: continuous signal).
//!
//! The parts of a state are those that name it, and those with an asterisk that don't leave it out. What a state says
//! of a signal its first mention says; another mention in the same state is a fault. `specs/States` has what the
//! states of a process say.
#![tactic(auto)]

mod answers;
mod chosen;
mod known;
pub mod laws;
mod left_out;
mod named;
mod order;
mod outline;
mod process;
mod shared;
mod stimuli;
mod table;

pub use answers::Answers;
pub use left_out::note_left_out;
pub use named::Named;
pub use order::{NumberedSignal, tried};
pub use process::NamedStates;
pub use shared::{StateTables, read_states};
pub use stimuli::{
    Context, ContinuousSignal, Manner, Numbering, Reading, Response, TransitionId, read_body,
};
pub use table::Table;
