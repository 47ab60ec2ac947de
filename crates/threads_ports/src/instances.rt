//! The numbers of a run's instances, which are their identities, and who lives (Z.101: agent instance set, create).
//!
//! Threads draw the numbers 1 to 1,000 from one `Table` without a lock, each thread with a seat of its own. Over any
//! split and gathering of seats no number is drawn twice and none is left out, and `Full` comes only once all 1,000
//! are drawn. `specs/Rule.antt` has the rule over the table's one word and over what each seat has drawn; each call
//! keeps it.
//!
//! `Entries` has for each number what was entered for it: all threads share it without a lock, and what is found under a
//! number is the entry of that number. `Roster` is the registry of the living: for each process it has the numbers of
//! those that live, and how many creates are under way; and it counts how often somebody came to life or ended: its
//! version. Each call is exact on that, and those that live and those that are reserved are never more than the process's
//! maximum. Once made, a roster needs no memory.

pub mod birth;
mod entered;
mod entries;
mod full;
mod instances;
mod numbers;
mod processes;
mod roster;
mod rule;
mod seat;
mod steps;
mod table;

pub use entered::Entered;
pub use entries::Entries;
pub use full::Full;
pub use roster::Roster;
pub use seat::Seat;
pub use table::Table;
