//! The active timers as callers see them.

use crate::values::{Arm, Ticks, TimerKey};

/// A timer between its set and the end of its activity. No value of it is made.
pub struct ActiveTimer {
    pub key: TimerKey,
    pub phase: Phase,
}

/// How far an active timer is, by the set `arm`.
#[derive(Clone, Copy, PartialEq, Eq)]
pub enum Phase {
    /// Set for the time `due`.
    Running { arm: Arm, due: Ticks },
    /// Expired, with its signal in the port.
    Waiting { arm: Arm },
}
