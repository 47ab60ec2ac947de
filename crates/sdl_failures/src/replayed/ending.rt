//! Whether an instance failed.

ghost use Rattle.std.specs.Prelude.{◌≡◌};
ghost use Rattle.sdl_failures.specs.Ending.{failure_in, has_failed};

use run_record::{Entry, Failure, Record};

/// Why the instance of a record failed, if it did: that is the last of its events.
pub fn failure_of(trace: &Record) -> Option<Failure>
    ensures { result ≡ failure_in trace.now.events }
{
    let last = trace.last()?;
    match last.entry {
        Entry::FailedAt { why, .. } => Some(why),
        Entry::Failed { why } => Some(why),
        _ => None,
    }
}

/// Whether an instance of these records failed.
pub fn has_failed(records: &[Record]) -> bool
    ensures { result ≡ has_failed records.now }
{
    records.iter().any(|trace| failure_of(trace).is_some())
}
