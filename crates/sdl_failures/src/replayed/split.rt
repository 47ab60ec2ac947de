//! Where in a record the last transition begins before something that is looked for.

use run_record::{Entry, Record};
use std::alloc::AllocError;
use view_timeline::Cursor;

/// What is looked for in a record.
#[derive(Clone, Copy, PartialEq, Eq)]
pub enum Goal {
    /// What failed the instance.
    Failure,
    /// The create of the instance of this number.
    Created(u32),
}

impl Goal {
    /// Whether an event is it.
    pub fn is_met(self, entry: Entry) -> bool {
        match (self, entry) {
            (Goal::Failure, Entry::Failed { .. }) => true,
            (Goal::Failure, Entry::FailedAt { .. }) => true,
            (
                Goal::Created(number),
                Entry::Create {
                    pid: Some(created),
                    ..
                },
            ) => created == number,
            _ => false,
        }
    }
}

/// How many events of a record come before the transition in which the goal is met; if that is a failure in a state, how
/// many come before it. None: the goal isn't met.
pub fn events_before(trace: &Record, goal: Goal) -> Result<Option<usize>, AllocError> {
    let mut left = Cursor::new(trace)?;
    let mut before = 0;
    for passed in 0..trace.len() {
        let Some(next) = left.next() else {
            return Ok(None);
        };
        if begins(next.entry) {
            before = passed;
        }
        if goal.is_met(next.entry) {
            return Ok(Some(before));
        }
        left = next.rest;
    }
    Ok(None)
}

/// Whether an event begins a transition, or is a failure in a state.
fn begins(entry: Entry) -> bool {
    matches!(
        entry,
        Entry::Start { .. }
            | Entry::Consumed { .. }
            | Entry::Prior { .. }
            | Entry::Provided { .. }
            | Entry::FailedAt { .. }
    )
}
