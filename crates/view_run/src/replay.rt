//! Finds one order of all of a run with workers (Z.101: system, agent), by what the run kept beside its records.
//!
//! The courses say of each port who put each entry, of each step how many entries were drawn by then, and of each look
//! at who lives which roster it saw. Which condition failed an instance follows from the records (`looked`). So for
//! each event is known what has to come before it, and no choice is left. A record tells its events until one is
//! hindered, and then waits for one thing; whatever happens wakes whom it lets go on. So the time is linear in the
//! number of events. What is told is executed (`run_order`): so it is a run in one order, whatever the courses say;
//! wrong ones can only make it stuck.

mod environment;
mod finder;
mod found;
mod looked;
mod telling;

pub use found::{Found, find_order};
