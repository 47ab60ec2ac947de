//! The input port of an SDL agent (Z.101, Z.102: input port, save, timers) for many senders and one owner, without a
//! lock.
//!
//! A port is a queue that all threads share and a plain port that its owner alone has. Senders push signals and
//! expiries into the queue; the owner draws them, puts each into its plain port in turn, and takes from there. At the
//! end what is left comes back just as it was put. `laws` has what follows from the contracts of an owner's calls for
//! its whole life. The queue with its rule, those who put into it and what draws from it stand in `crate::queue`; here
//! stand the owner over these, as long as it lives and after its stop, and the making of a port. `Owner::stop` consumes
//! the owner: a take, set or reset after it is a use of a moved value, and does not compile.
#![tactic(auto)]

pub mod birth;
mod held;
pub mod laws;
mod owner;
mod queue;
mod retired;
mod since;

pub use birth::NewPort;
pub use held::Held;
pub use owner::Owner;
pub use queue::{Desk, Finished, Port, Queue, Sender};
pub use retired::Retired;
