//! What lasts as long as a run.

use threads_ports::{Entries, Numbers, Ports, Run};

/// The things that last as long as the run `J`: its ports, its numbers, and the entry of each. All threads share them.
#[derive(Drop)]
pub struct Common<J: Run> {
    pub ports: Ports<J>,
    pub numbers: Numbers<J>,
    pub entries: Entries,
}
