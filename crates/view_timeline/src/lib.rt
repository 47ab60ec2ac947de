//! One order of all that was done in a run, and who took what (Z.120: basic message sequence charts).
//!
//! A report says what each instance did, and neither when another one did something nor which output an input took.
//! `timeline_in` tells it in an order that is given, event by event: a transition may be told in several parts, with
//! parts of others between them. Of one sender, receiver and name, signals are taken in the order in which they were
//! sent. `specs/Timeline.antt` and `specs/Parts.antt` say what a timeline of a report is.
#![tactic(auto)]

mod admitting;
mod channel;
mod cursor;
mod entries;
mod events;
mod moves;
mod rows;
mod told_order;
mod traffic;
mod untold;

pub use cursor::{Cursor, Next};
pub use entries::begins;
pub use moves::{ArrowId, EntryId, Link, Move, RecordId, Timeline};
pub use told_order::timeline_in;
pub use untold::Untold;
