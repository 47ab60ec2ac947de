//! Entries on their way into a port.

ghost use Rattle.std.specs.Prelude.{◌≡◌, ◌≤◌, if◌then◌else◌};
ghost use Rattle.port_model.specs.Ends.{is_signal_entry};

use crate::inbox::entry::Entry;
use crate::inbox::put_count::PutCount;
use crate::inbox::sender_number::SenderNumber;
use crate::values::Ticks;

/// An entry on its way into a port, with its sender and its place among the entries of that sender. `at` is the time of
/// an expiry, and the start of the run for a signal.
#[derive(Drop)]
pub struct Placed {
    pub number: SenderNumber,
    pub count: PutCount,
    pub at: Ticks,
    pub entry: Entry,
}

impl Placed {
    /// 1 for a signal, 0 for an expiry.
    pub fn signals(&self) -> u64
        ensures few { result ≤ 1 }
        ensures count { result ≡ (if is_signal_entry self.now.entry then 1 else 0) }
    {
        u64::from(self.entry.is_signal())
    }

    /// The entry alone.
    pub fn into_entry(self) -> Entry
        ensures { result ≡ self.entry }
    {
        let Placed { entry, .. } = self;
        entry
    }
}

/// A sender that was gathered, and how many entries it put. No value of it is made.
pub struct Gone {
    pub number: SenderNumber,
    pub count: PutCount,
}
