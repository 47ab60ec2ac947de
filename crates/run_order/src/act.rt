//! What the events of a record are to those outside of its instance.

ghost use Rattle.std.specs.Prelude.{◌≡◌};
ghost use Rattle.port_model.specs.Value.{ValueList};
ghost use Rattle.run_order.specs.Woven.{act_of};
ghost use Rattle.run_record.specs.Entry.{event_of};

use run_record::Entry;
use sdl_system::{Dest, ProcessId};

/// What an event is to those outside of its instance.
#[derive(Clone, Copy)]
pub enum Act {
    /// A signal is sent to this destination.
    Send(Dest),
    /// A timer is set.
    Arm,
    /// An instance is made.
    Create,
    /// A create of an instance of this process makes none.
    Full(ProcessId),
    /// The instance ends.
    End,
    /// Nothing.
    Inside,
}

impl Act {
    /// What the event of an entry is.
    pub fn of(entry: Entry) -> Act
        ensures { (values : ValueList) → act_of (event_of entry values) ≡ result }
    {
        match entry {
            Entry::Output { to, .. } => Act::Send(to),
            Entry::Set { .. } => Act::Arm,
            Entry::Create { pid: Some(_), .. } => Act::Create,
            Entry::Create { process, pid: None } => Act::Full(process),
            Entry::Stop | Entry::Failed { .. } | Entry::FailedAt { .. } => Act::End,
            Entry::Start { .. }
            | Entry::Consumed { .. }
            | Entry::Prior { .. }
            | Entry::Discarded { .. }
            | Entry::Provided { .. }
            | Entry::Task { .. }
            | Entry::Reset { .. }
            | Entry::NextState { .. }
            | Entry::Rest { .. }
            | Entry::Cut { .. } => Act::Inside,
        }
    }
}
