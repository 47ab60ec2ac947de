//! What the threads of a run share, and what an instance's step asks of it (Z.101: system, create); and the environment
//! of the run (Z.101: environment, input port; Z.102: input, timer).
//!
//! `Common` is what lasts as long as the run: ports, numbers, entries. `Tables` are the roster, the wheel, the
//! injector, the local queues of the workers and a few words. `Shared` lends both to all threads, with the slots of the
//! instances; its type says that the system is the one that the run names, so an instance that is made has its seat in
//! this run. `Own` is what one thread has for itself. `StepRuntime` is the `Runtime` of a step: a route is by some list
//! of living instances, and all else fits the run's name by the types.
//!
//! An `Environment` hears the lines of its script, one by one, and notes where the signal of each went. Its type says
//! that what was put into each port is the end of what went to that instance: a signal to an instance into whose port
//! there is no sender, and that is not entered, is gone, and nothing was put there before. When a line is heard is for
//! the caller to say, and so is who is woken then.
//!
//! The order of locks: that of the slot of the instance that steps comes first, then that of the roster. Under the
//! roster's an instance is made, which takes those of the owners and of its own slot, one by one. No other thread takes
//! the lock of a slot before somebody is there. Under that of the injector a local queue's may be taken, and none under
//! that. All other locks are taken one by one, and none under them.
#![tactic(auto)]

mod addressees;
mod common;
mod environment;
mod hearing;
mod lookout;
pub mod making;
mod noting;
mod own;
mod sending;
mod shared;
mod signs;
mod step_runtime;
mod tables;

pub use addressees::Addressees;
pub use common::Common;
pub use environment::Environment;
pub use lookout::Lookout;
pub use noting::note_stepped;
pub use own::Own;
pub use shared::{Seated, Shared};
pub use signs::Signs;
pub use step_runtime::StepRuntime;
pub use tables::Tables;
