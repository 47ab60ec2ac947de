//! What waits in a port.

ghost use Rattle.std.specs.Prelude.{◌≡◌};
ghost use Rattle.port_model.specs.Take.{name_of};
ghost use Rattle.port_model.specs.Timers.{is_signal_of};

use crate::values::{Item, SignalId, TimerKey};

/// An entry that waits in a port: a signal, or the signal of a timer that has expired.
#[derive(PartialEq, Eq, Drop)]
pub enum Got {
    Signal(Item),
    Timer(TimerKey),
}

impl Got {
    /// The name of the signal or of the timer.
    pub fn name(&self) -> SignalId
        ensures { result ≡ name_of self.now }
    {
        match self {
            Got::Signal(item) => item.name,
            Got::Timer(key) => key.name,
        }
    }

    /// Whether this is the signal of the timer with that key.
    pub fn is_signal_of(&self, key: &TimerKey) -> bool
        ensures { result ≡ is_signal_of key.now self.now }
    {
        match self {
            Got::Signal(_) => false,
            Got::Timer(expired) => expired == key,
        }
    }
}
