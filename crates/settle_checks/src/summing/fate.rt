//! Whether a record has an end, and want of memory.

ghost use Rattle.std.specs.Prelude.{◌≡◌, ◌||◌, ◌++◌, ◌∷◌, [], List};
ghost use Rattle.port_model.specs.declared.values.value.Value.{Value};
ghost use Rattle.run_record.specs.Entry.{event_of};
ghost use Rattle.run_record.specs.Event as event;
ghost use Rattle.run_record.specs.Event.{Event};
ghost use Rattle.settle_meaning.specs.Identities as identities;
ghost use Rattle.settle_meaning.specs.Living as living;
ghost use Rattle.settle_checks.specs.Summary.{IsFate};

use run_record::{Entry, Failure};

/// Whether the instance has ended, by a stop or a failure, and whether it failed for lack of memory.
#[derive(Clone, Copy)]
pub struct Fate {
    pub ends: bool,
    pub lacks_memory: bool,
}

impl Fate {
    /// Before the first event.
    #[tactic(auto, using(crate::proofs::FateLemmas::fate_none))]
    pub fn new() -> Self
        ensures { IsFate [] result }
    {
        Fate {
            ends: false,
            lacks_memory: false,
        }
    }

    /// Notes an event.
    #[tactic(auto, using(crate::proofs::FateLemmas::fate_more))]
    pub fn note(&mut self, entry: Entry)
        ensures { (done : List Event) (values : List Value) → IsFate done self.old
            → IsFate (done ++ event_of entry values ∷ []) self.new }
    {
        let ends = either(self.ends, is_end(entry));
        let lacks_memory = either(self.lacks_memory, is_memory(entry));
        *self = Fate { ends, lacks_memory };
    }
}

/// Whether one of the two is so.
fn either(one: bool, other: bool) -> bool
    ensures { result ≡ one || other }
{
    one || other
}

/// Whether the instance ends with the event.
fn is_end(entry: Entry) -> bool
    ensures { (values : List Value) → result ≡ living.is_end (event_of entry values) }
{
    match entry {
        Entry::Stop => true,
        Entry::Failed { .. } => true,
        Entry::FailedAt { .. } => true,
        _ => false,
    }
}

/// Whether the event is a failure for lack of memory.
fn is_memory(entry: Entry) -> bool
    ensures { (values : List Value) → result ≡ identities.is_memory (event_of entry values) }
{
    match entry {
        Entry::Failed { why } => is_memory_failure(why),
        Entry::FailedAt { why, .. } => is_memory_failure(why),
        _ => false,
    }
}

fn is_memory_failure(why: Failure) -> bool
    ensures { result ≡ identities.is_memory (event.Failed why) }
{
    match why {
        Failure::Memory => true,
        _ => false,
    }
}
