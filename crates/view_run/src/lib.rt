//! The order in which a run is told (Z.101: system, agent; Z.120: basic message sequence charts).
//!
//! Its records don't say it, so something is kept beside them while the run goes on (`OrderLog`). A run on one thread is
//! told in the order in which it was made. Of a run with workers its course says which of its events came before which.
//! So it is told in one order of all, in which each port is the standard's: event by event, so that a transition may be
//! told in parts.
#![tactic(auto)]

mod by_course;
mod by_log;
mod by_tellers;
mod order;
mod order_log;
mod replay;

pub use by_log::order_by_log;
pub use order::Order;
pub use order_log::OrderLog;
pub use replay::{Found, find_order};
