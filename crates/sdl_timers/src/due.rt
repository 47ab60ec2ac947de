//! The order in which fuses are due.

ghost use Rattle.std.specs.Prelude.{◌≡◌, ◌%◌};
ghost use Rattle.sdl_timers.specs.DueOrder.{due_of, earlier};

use port_model::{Arm, Fuse, Ticks};

/// Where a fuse stands in due order: by its time, then by the number of its port, then by that of its set.
#[derive(Clone, Copy, PartialEq, Eq, PartialOrd, Ord)]
pub struct Due {
    pub time: Ticks,
    pub pid: u32,
    pub arm: Arm,
}

impl Due {
    pub fn of(fuse: &Fuse) -> Self
        ensures { result ≡ due_of fuse.now }
    {
        Due {
            time: fuse.due(),
            pid: fuse.pid(),
            arm: fuse.arm(),
        }
    }

    /// The slot of the wheel in which the fuse waits.
    pub fn slot(self) -> u8
        ensures { result ≡ self.time % 256 }
    {
        (self.time.get() % 256) as u8
    }
}

/// The one that is due first, the left one of two that tie.
pub fn earlier(left: Option<Due>, right: Option<Due>) -> Option<Due>
    ensures { result ≡ earlier left right }
{
    match (left, right) {
        (Some(a), Some(b)) => Some(if b < a { b } else { a }),
        (Some(a), None) => Some(a),
        (None, other) => other,
    }
}
