//! What an entry has to do with the order of moves.

ghost use Rattle.std.specs.Prelude.{◌≡◌};
ghost use Rattle.port_model.specs.Value.{ValueList};
ghost use Rattle.run_record.specs.Entry.{event_of};
ghost use Rattle.view_timeline.specs.Did.{begins, looked_up, time_of};
ghost use Rattle.view_timeline.specs.Effect.{effect_in};

use port_model::{SignalId, Ticks};
use run_record::{Entry, Stimulus};
use sdl_system::{Dest, Target};

/// What an entry does to other instances, or to the life of one.
#[derive(Clone, Copy)]
pub enum Effect {
    /// It takes a signal or a timer.
    Takes(Stimulus),
    /// It sends a signal.
    Sends { signal: SignalId, target: Target },
    /// It creates the instance of this number.
    Creates(u32),
    /// It ends its own instance.
    Ends,
    /// None.
    Nothing,
}

/// What the entry does to other instances, or to the life of one.
pub fn effect_of(entry: &Entry) -> Effect
    ensures { result ≡ effect_in entry.now }
{
    match *entry {
        Entry::Consumed { got, .. } | Entry::Prior { got, .. } | Entry::Discarded { got, .. } => {
            Effect::Takes(got)
        }
        Entry::Output { signal, target, .. } => Effect::Sends { signal, target },
        Entry::Create {
            pid: Some(number),
            ..
        } => Effect::Creates(number),
        Entry::FailedAt { .. } | Entry::Stop | Entry::Failed { .. } => Effect::Ends,
        _ => Effect::Nothing,
    }
}

/// The instance to which an output goes that names no Pid: it is looked up among those that live.
pub fn looked_up(entry: &Entry) -> Option<u32>
    ensures { (values : ValueList) → result ≡ looked_up (event_of entry.now values) }
{
    match *entry {
        Entry::Output {
            to: Dest::Path,
            target: Target::Instance(number),
            ..
        }
        | Entry::Output {
            to: Dest::Process(_),
            target: Target::Instance(number),
            ..
        } => Some(number),
        _ => None,
    }
}

/// Whether a move begins with the entry.
pub fn begins(entry: &Entry) -> bool
    ensures { (values : ValueList) → result ≡ begins (event_of entry.now values) }
{
    match entry {
        Entry::Start { .. }
        | Entry::Consumed { .. }
        | Entry::Prior { .. }
        | Entry::Discarded { .. }
        | Entry::Provided { .. }
        | Entry::FailedAt { .. }
        | Entry::Rest { .. }
        | Entry::Cut { .. } => true,
        _ => false,
    }
}

/// When it begins: a record closes at no time.
pub fn time_of(entry: &Entry) -> Option<Ticks>
    ensures { (values : ValueList) → result ≡ time_of (event_of entry.now values) }
{
    match entry {
        Entry::Start { at }
        | Entry::Consumed { at, .. }
        | Entry::Prior { at, .. }
        | Entry::Discarded { at, .. }
        | Entry::Provided { at, .. }
        | Entry::FailedAt { at, .. } => Some(Ticks::new(*at)),
        _ => None,
    }
}
