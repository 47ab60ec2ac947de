//! What an event is.

ghost use Rattle.std.specs.Prelude.{◌≡◌};
ghost use Rattle.run_record.specs.Event as event;
ghost use Rattle.run_record.specs.Told.{event_told};

use run_record::{Entry, Told};

/// Whether a transition begins with it.
pub fn is_beginning(told: Told<'_>) -> bool
    ensures { result ≡ event.is_beginning (event_told told.entry) }
{
    match told.entry {
        Entry::Start { .. } => true,
        Entry::Consumed { .. } => true,
        Entry::Prior { .. } => true,
        Entry::Discarded { .. } => true,
        Entry::Provided { .. } => true,
        _ => false,
    }
}
