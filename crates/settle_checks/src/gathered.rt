//! What was put into the ports of a run, once nobody puts any more: each port gathers its senders and is drawn to its
//! end (Z.101: input port).
//!
//! What the senders have put is fixed then. `Fixed` gives it a name: by the number of a port and the place of a sender,
//! where the environment has a place and each instance. A `Gathering` is a port that gathers senders by ascending places,
//! and passes over those that have put nothing there. `Counted` is a port of which as many signals were drawn as its
//! senders have put. Then just these were drawn, from each sender in its order: `laws` says so.
//! Nothing here knows a record, and no sender is compared with another.

mod counted;
mod fault;
mod fixed;
mod gathering;
pub mod laws;

pub use counted::Counted;
pub use fault::Fault;
pub use fixed::Fixed;
pub use gathering::Gathering;
