//! Signals, and their names as numbers.

use crate::values::pid::Pid;
use crate::values::values::Values;

/// The name of a signal or of a timer, as its number in the system. Signals and timers share these numbers.
#[derive(Clone, Copy, PartialEq, Eq, PartialOrd, Ord, Hash)]
pub struct SignalId(pub u32);

/// A signal on its way to an instance or in its port.
#[derive(PartialEq, Eq, Drop)]
pub struct Item {
    pub name: SignalId,
    pub values: Values,
    pub sender: Pid,
}
