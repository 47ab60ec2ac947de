//! The deadlines of timers.

use crate::values::{Arm, Ticks};

/// When a timer that runs is due, and by which set. The earlier deadline is the lesser one, and of two at one time that
/// of the earlier set.
#[derive(Clone, Copy, PartialEq, Eq, PartialOrd, Ord)]
pub struct Deadline {
    pub due: Ticks,
    pub arm: Arm,
}
