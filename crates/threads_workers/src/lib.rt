//! The threads of a run: they are started, work, and are joined (Z.101: system, environment).
//!
//! `drive` starts a worker on each of so many threads, has the driver drive the run on the calling thread, and
//! joins all of them. What a thread gets fits the run by its type, so nothing is asked of it here.
//!
//! A worker takes a number out of its local queue, makes steps of that instance, and wakes whom it has sent something.
//! What waits for a worker that isn't run goes to the others. The driver has the environment hear the script and moves
//! the clock, only at rest: all workers sleep, and no number is queued. Which instance steps when isn't fixed, and no
//! contract says that a thread gets on: who waits has the bound `Wait`.
#![tactic(auto)]

mod driver;
mod gate;
mod job;
mod pool;
mod relief;
mod start;
mod waking;
mod worker;

pub use driver::Driver;
pub use gate::{Gate, Open};
pub use pool::drive;
pub use start::begin;
