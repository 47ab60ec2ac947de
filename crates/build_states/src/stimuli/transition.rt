//! The numbers of transitions.

ghost use Rattle.std.specs.Prelude.{◌≡◌, ◌<◌, ◌+◌, ◌^◌, IfOk, IsOk};

use std::alloc::AllocError;

/// A transition of a process, counted from 0 in the order of the text: the start, then each stimulus that begins one
/// and each connection.
#[derive(Clone, Copy, PartialEq, Eq, PartialOrd, Ord, Hash)]
pub struct TransitionId(pub u32);

impl TransitionId {
    /// The next transition. More transitions than have numbers take more memory than there is.
    pub(crate) fn next(self) -> Result<TransitionId, AllocError>
        ensures same { IfOk result (λ next. next ≡ record { 0 = self.0 + 1 }) }
        ensures fits { self.0 + 1 < 2 ^ 32 → IsOk result }
    {
        let number = self.0.checked_add(1).ok_or(AllocError)?;
        Ok(TransitionId(number))
    }
}
