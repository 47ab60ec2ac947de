//! What a look at the events of each record tells, and checks over that (Z.101: system; Z.102: input, output, create,
//! timer).
//!
//! `summary_of` looks at each event of a record once. What a record sends and takes is counted in `Flows`: by whom it went
//! to or came from, by name and by time. All that the checks ask of it is such a count. So it says how often a signal
//! passed, not in which order. `are_due` looks once more, at a record that takes a timer's signal.

mod course;
mod covered;
mod creating;
mod crossings;
mod dues;
mod ends;
mod enough;
mod fate;
mod flows;
mod late;
pub mod laws;
mod living;
mod made;
mod nulls;
mod places;
mod routes;
mod sending;
mod starts;
mod summary;
mod taking;
mod totals;

pub use course::Course;
pub use covered::are_covered;
pub use creating::{Birth, Creating};
pub use crossings::{Crossing, Way, add_sent, add_taken};
pub use dues::are_due;
pub use ends::{latest, transitions};
pub use enough::is_enough;
pub use fate::Fate;
pub use flows::{Flow, Flows, Pass, flows_of};
pub use late::{late_flows, passes_of};
pub use living::{are_within, lived};
pub use made::are_made;
pub use nulls::{are_caused, some_memory};
pub use places::place_of;
pub use routes::are_meant;
pub use sending::Sending;
pub use starts::are_started;
pub use summary::{Summary, summary_of};
pub use taking::Taking;
pub use totals::Totals;
