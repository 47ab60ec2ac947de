//! What goes into a port: signals, and the expiries of timers with their fuses.

ghost use Rattle.std.specs.Prelude.{◌≡◌};
ghost use Rattle.port_model.specs.Ends.{is_signal_entry};

use crate::values::{Arm, Item, Ticks, TimerKey};

/// A timer that was set: which port set it, its key, by which set of that port, and the time at which it expires.
/// `Owner::set` makes it.
#[derive(PartialEq, Eq, Drop)]
pub struct Fuse {
    pid: u32,
    key: TimerKey,
    arm: Arm,
    due: Ticks,
}

/// The parts of a fuse that its expiry needs: all except the number of the instance.
#[derive(Drop)]
pub struct FuseParts {
    pub key: TimerKey,
    pub arm: Arm,
    pub due: Ticks,
}

impl Fuse {
    pub(crate) fn new(pid: u32, key: TimerKey, arm: Arm, due: Ticks) -> Self
        ensures { result ≡ record { pid = pid; key = key; arm = arm; due = due } }
    {
        Fuse { pid, key, arm, due }
    }

    pub(crate) fn into_parts(self) -> FuseParts
        ensures { result ≡ record { key = self.key; arm = self.arm; due = self.due } }
    {
        let Fuse { key, arm, due, .. } = self;
        FuseParts { key, arm, due }
    }

    /// The number of the port that set the timer.
    pub fn pid(&self) -> u32
        ensures { result ≡ self.now.pid }
    {
        self.pid
    }

    /// The timer.
    pub fn key(&self) -> &TimerKey
        ensures { result.now ≡ self.now.key }
    {
        &self.key
    }

    /// Its set.
    pub fn arm(&self) -> Arm
        ensures { result ≡ self.now.arm }
    {
        self.arm
    }

    /// The time at which the timer expires.
    pub fn due(&self) -> Ticks
        ensures { result ≡ self.now.due }
    {
        self.due
    }
}

/// An entry of a port: a signal, or a timer that has expired.
#[derive(PartialEq, Eq, Drop)]
pub enum Entry {
    Signal(Item),
    Timer(Fuse),
}

impl Entry {
    /// Whether it is a signal.
    pub fn is_signal(&self) -> bool
        ensures { result ≡ is_signal_entry self.now }
    {
        match self {
            Entry::Signal(_) => true,
            Entry::Timer(_) => false,
        }
    }
}
