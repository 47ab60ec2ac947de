//! Reading a record.

ghost use Rattle.std.specs.Prelude.{◌≡◌, length, ◌≤◌};
ghost use Rattle.run_record.specs.Packed.{counted, told};

use crate::entry::Entry;
use crate::packed::Packed;
use port_model::Value;
use std::marker::Model;

/// An event of a record: an entry, and its values.
#[derive(Clone, Copy)]
pub struct Told<'r> {
    pub entry: Entry,
    pub values: &'r [Value],
}

/// The events of a record that are left to be read, in their order.
pub struct Reader<'r> {
    entries: &'r [Packed],
    values: &'r [Value],
    // the time of the latest beginning before them
    time: u64,
}

/// Written out, so that it is proved here, and not anew in each crate that drops one.
impl<'r> Drop for Reader<'r> {
    fn drop(self) {
        let Reader {
            entries: _,
            values: _,
            time: _,
        } = self;
    }
}

impl<'r> Model for Reader<'r> {
    ghost use Rattle.std.specs.Prelude.{List, length, ◌≤◌};
    ghost use Rattle.run_record.specs.Event.{Event};
    ghost use Rattle.run_record.specs.Packed.{counted, told};

    ghost Value = { List Event };

    ghost view = { λ r. told r.time r.entries.now r.values.now };

    ghost invariant = { λ r. counted r.entries.now ≤ length r.values.now };
}

impl<'r> Reader<'r> {
    /// A reader of these entries, the values of which stand in one table.
    pub(crate) fn new(entries: &'r [Packed], values: &'r [Value]) -> Reader<'r>
        requires { counted entries.now ≤ length values.now }
        ensures { result ≡ told 0 entries.now values.now }
    {
        Reader {
            entries,
            values,
            time: 0,
        }
    }

    /// A reader of the last entries of a record, which are of this time.
    pub(crate) fn of_one_time(entries: &'r [Packed], values: &'r [Value], time: u64) -> Reader<'r>
        requires { counted entries.now ≤ length values.now }
        ensures { result ≡ told time entries.now values.now }
    {
        Reader {
            entries,
            values,
            time,
        }
    }

    /// A reader of the same events.
    pub fn again(&self) -> Reader<'r>
        ensures { result ≡ self.now }
    {
        Reader {
            entries: self.entries,
            values: self.values,
            time: self.time,
        }
    }
}

impl<'r> Iterator for Reader<'r> {
    ghost use Rattle.std.specs.Iterator.{YieldsFirstBy, item_count};
    ghost use Rattle.run_record.specs.Told.{event_told};

    type Item = Told<'r>;

    ghost next_gives = { YieldsFirstBy event_told (λ left. left) };

    ghost remaining = { item_count (λ left. left) };

    #[inline(always)]
    fn next(&mut self) -> Option<Told<'r>> {
        while let Some((first, rest)) = self.entries.split_first() {
            let (values, more) = self.values.split_at(first.count());
            let found = first.entry_at(self.time);
            self.time = first.time_after(self.time);
            self.entries = rest;
            self.values = more;
            if let Some(entry) = found {
                return Some(Told { entry, values });
            }
        }
        None
    }
}
