//! How far the records and the ports of a run with workers are told, by what the run kept beside its records.
//!
//! A `Track` has what is left of a record, a `PortTrack` what is still to be put into a port, and `RosterTurns` which
//! changes and look-ups of who lives are still to come. `Tracks` has all of a run. A `WorkList` says whose record may
//! go on, and a `WaitList` who waits until something has come so far.
#![tactic(auto)]

mod by_number;
mod laws;
mod looks;
mod port_track;
mod roster_turns;
mod track;
mod tracks;
mod waiting;
mod words;
mod work_list;

pub use laws::{nothing_is_chosen, stuck_has_no_order, two_are_apart};
pub use port_track::PortTrack;
pub use roster_turns::{RosterTurns, Turn};
pub use track::Track;
pub use tracks::Tracks;
pub use waiting::WaitList;
pub use work_list::WorkList;
