//! The times of a record, its start, and how many transitions it has.

ghost use Rattle.std.specs.Prelude.{◌≡◌, ◌+◌, ◌++◌, ◌∷◌, [], List, IfSome, IsTrue, if◌then◌else◌};
ghost use Rattle.port_model.specs.declared.values.value.Value.{Value};
ghost use Rattle.run_record.specs.Entry.{event_of};
ghost use Rattle.run_record.specs.Event as event;
ghost use Rattle.run_record.specs.Event.{Event};
ghost use Rattle.run_semantics.specs.World.{time_after_one};
ghost use Rattle.settle_checks.specs.Summary.{IsCourse, IsNextTime, IsStartWith};

use run_record::Entry;

/// The time of the last event that has one, 0 for none; that of the start; and how many transitions begin.
#[derive(Clone, Copy)]
pub struct Course {
    pub time: u64,
    pub start: Option<u64>,
    pub transitions: u64,
}

impl Course {
    /// Before the first event.
    #[tactic(auto, using(crate::proofs::CourseLemmas::course_none))]
    pub fn new() -> Self
        ensures { IsCourse [] result }
    {
        Course {
            time: 0,
            start: None,
            transitions: 0,
        }
    }

    /// Notes an event. False: its time is less than one before, it is a second start at another time, or there are more
    /// transitions than can be counted.
    pub fn note(&mut self, entry: Entry) -> bool
        ensures { IsTrue result → (done : List Event) (values : List Value) → IsCourse done self.old
            → IsCourse (done ++ event_of entry values ∷ []) self.new }
    {
        let Some(transitions) = self.counted(entry) else {
            return false;
        };
        let Some(time) = self.time_with(entry) else {
            return false;
        };
        let Some(start) = start_with(self.start, entry) else {
            return false;
        };
        *self = Course {
            time,
            start,
            transitions,
        };
        true
    }

    /// How many transitions there are with this event. None: more than can be counted.
    fn counted(&self, entry: Entry) -> Option<u64>
        ensures { IfSome result (λ count. (values : List Value)
            → count ≡ self.now.transitions + (if event.is_beginning (event_of entry values) then 1 else 0)) }
    {
        if begins(entry) {
            self.transitions.checked_add(1)
        } else {
            Some(self.transitions)
        }
    }

    /// The time after this event. None: it is less than that before.
    fn time_with(&self, entry: Entry) -> Option<u64>
        ensures { IfSome result (λ time. (values : List Value)
            → IsNextTime self.now.time (event_of entry values) time) }
    {
        let at = time_of(self.time, entry);
        if at < self.time { None } else { Some(at) }
    }
}

/// The start with this event, if there is one. None: it is a second one, at another time.
fn start_with(start: Option<u64>, entry: Entry) -> Option<Option<u64>>
    ensures { IfSome result (λ new. (values : List Value) → IsStartWith start (event_of entry values) new) }
{
    let Entry::Start { at } = entry else {
        return Some(start);
    };
    match start {
        None => Some(Some(at)),
        Some(other) => { if other == at { Some(start) } else { None } }
    }
}

/// Whether a transition begins with the event.
fn begins(entry: Entry) -> bool
    ensures { (values : List Value) → result ≡ event.is_beginning (event_of entry values) }
{
    match entry {
        Entry::Start { .. } => true,
        Entry::Consumed { .. } => true,
        Entry::Prior { .. } => true,
        Entry::Discarded { .. } => true,
        Entry::Provided { .. } => true,
        _ => false,
    }
}

/// The time after an event, by that before.
pub fn time_of(earlier: u64, entry: Entry) -> u64
    ensures { (values : List Value) → result ≡ time_after_one earlier (event_of entry values) }
{
    match entry {
        Entry::Start { at } => at,
        Entry::Consumed { at, .. } => at,
        Entry::Prior { at, .. } => at,
        Entry::Discarded { at, .. } => at,
        Entry::Provided { at, .. } => at,
        Entry::FailedAt { at, .. } => at,
        _ => earlier,
    }
}
