//! Which events take what the environment sends, and which come after it.

ghost use Rattle.std.specs.Prelude.{◌≡◌};
ghost use Rattle.port_model.specs.Value.{ValueList};
ghost use Rattle.run_record.specs.Entry.{event_of, got_of};
ghost use Rattle.view_text.specs.Sending.{closes_record, comes_after, env_signal, heard_by, is_after};

use port_model::{SignalId, Ticks};
use run_record::{Entry, Origin, Stimulus};

/// The signal of the environment that an entry takes.
pub fn heard_by(entry: &Entry) -> Option<SignalId>
    ensures { (values : ValueList) → result ≡ heard_by (event_of entry.now values) }
{
    match *entry {
        Entry::Consumed { got, .. } => env_signal(got),
        Entry::Prior { got, .. } => env_signal(got),
        Entry::Discarded { got, .. } => env_signal(got),
        _ => None,
    }
}

/// The name of what was got, if the environment sent it.
fn env_signal(got: Stimulus) -> Option<SignalId>
    ensures { (values : ValueList) → result ≡ env_signal (got_of got values) }
{
    match got.origin {
        Origin::Env => Some(got.name),
        Origin::Timer | Origin::Null | Origin::Instance(_) => None,
    }
}

/// Whether a move that begins with the entry comes after what the environment sends at this time.
pub fn comes_after(at: Ticks, entry: &Entry) -> bool
    ensures { (values : ValueList) → result ≡ comes_after at (event_of entry.now values) }
{
    let at = at.get();
    match *entry {
        Entry::Start { at: time } => is_after(at, time, false),
        Entry::Consumed { at: time, got } => is_after(at, time, env_signal(got).is_some()),
        Entry::Prior { at: time, got } => is_after(at, time, env_signal(got).is_some()),
        Entry::Discarded { at: time, got } => is_after(at, time, env_signal(got).is_some()),
        Entry::Provided { at: time, .. } => is_after(at, time, false),
        Entry::FailedAt { at: time, .. } => is_after(at, time, false),
        Entry::Rest { .. } => true,
        Entry::Cut { .. } => true,
        _ => false,
    }
}

/// Whether a transition that begins at a time comes after what is sent at a time, by whether it takes something of the
/// environment.
fn is_after(at: u64, time: u64, hears: bool) -> bool
    ensures { result ≡ is_after at time hears }
{
    if at == 0 {
        0 < time || hears
    } else {
        at <= time
    }
}

/// Whether a record closes with the entry.
pub fn closes_record(entry: &Entry) -> bool
    ensures { (values : ValueList) → result ≡ closes_record (event_of entry.now values) }
{
    match entry {
        Entry::Rest { .. } => true,
        Entry::Cut { .. } => true,
        _ => false,
    }
}
