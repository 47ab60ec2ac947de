//! Who is to step next in a run on threads: slots for what steps, queues of numbers, and the workers that sleep.
//!
//! What steps is in its slot all the time, under a lock of its own that nobody waits for: a number is in one queue at
//! most, and in none while a worker has it. The state of each slot says whether its number is in a queue already. So a
//! signal costs a look at a state, and no number is in two queues. What is queued is a `Ticket`, which only the state
//! makes and takes back: by its type it can't be copied or let go. Who gives one back has nothing to do or has ended,
//! as `Rests` says. Each worker has a local queue; the common one is in the injector, with the workers that sleep, and
//! each call there loses no number. If the system doesn't run a worker, another one moves what is in its local queue
//! into the injector. Which of them steps when isn't fixed, and no contract says that one gets on.

mod injector;
mod local;
mod refused;
mod rests;
mod slot;
mod slot_state;
mod slots;

pub use injector::{Injector, MOST_TAKEN, Turn};
pub use local::LocalQueue;
pub use refused::{Refused, put};
pub use rests::Rests;
pub use slot::Slot;
pub use slot_state::Ticket;
pub use slots::Slots;
