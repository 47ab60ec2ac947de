//! Which ways lead through the transitions of a process.
#![tactic(auto)]

mod beginnings;
mod ends;
pub mod laws;
mod mentions;
mod order;
mod quick;
mod rounds;
mod stays;
mod walk;

pub use ends::note_ends;
pub use mentions::Mention;
pub use stays::note_stays;
