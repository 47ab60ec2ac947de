//! What tells timers apart.

ghost use Rattle.std.specs.Prelude.{◌≡◌, ◌≤◌, length, IfOk, IsOk};

use crate::values::item::SignalId;
use crate::values::values::Values;
use std::alloc::AllocError;

/// The key of a timer among those of its instance: name and values. A timer without parameters has no values.
#[derive(PartialEq, Eq, PartialOrd, Ord, Drop)]
pub struct TimerKey {
    pub name: SignalId,
    pub values: Values,
}

impl TimerKey {
    /// A copy. Only memory can be wanting, and never for up to two values.
    pub fn copied(&self) -> Result<Self, AllocError>
        ensures ok { IfOk result (λ copy. copy ≡ self.now) }
        ensures few { length self.now.values ≤ 2 → IsOk result }
    {
        Ok(TimerKey {
            name: self.name,
            values: self.values.copied()?,
        })
    }
}
