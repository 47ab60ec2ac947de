//! Records of instances and the report of a run.

ghost use Rattle.std.specs.Prelude.{◌≡◌, ◌+◌, ◌^◌, ◌<◌, ◌≤◌, ◌++◌, ◌∷◌, [], ℕ, List, drop, length, vec_len, vec_capacity, IfSome, IsOk, IsTrue, MatchOption, OnOk};
ghost use Rattle.run_record.specs.Event as event;
ghost use Rattle.run_record.specs.Event.{receivers};
ghost use Rattle.run_record.specs.Packed.{count_of, is_event, time_to, told_at};
ghost use Rattle.run_record.specs.Record.{noted, with_room};
ghost use Rattle.run_record.specs.Told.{event_told};

use crate::growing::grow;
use crate::packed::Packed;
use crate::reader::{Reader, Told};
use crate::receivers::{Receivers, last_entries, values_of_one_time};
use port_model::{Pid, Ticks, Value};
use sdl_system::ProcessId;
use std::alloc::{AllocError, Global};
use std::fmt;
use std::marker::Model;

/// A record that has no room gets room for at least so many events and values, since most records soon have more.
const LEAST_EVENTS: usize = 32;

const LEAST_VALUES: usize = 32;

/// The record of one instance: what it did, one event after the other. It takes an event into room that `reserve` made,
/// and needs no memory for it then.
pub struct Record {
    process: ProcessId,
    pid: u32,
    parent: Pid,
    entries: Vec<Packed>,
    // the values of all entries, in their order
    values: Vec<Value>,
    // the time of the latest beginning
    time: u64,
    // how many events there are, and how many there may be without memory
    len: usize,
    most: usize,
    // so many values may come without memory
    values_room: u16,
}

/// Written out, so that it is proved here, and not anew in each crate that drops one.
impl Drop for Record {
    fn drop(self) {
        let Record {
            process: _,
            pid: _,
            parent: _,
            entries: _,
            values: _,
            time: _,
            len: _,
            most: _,
            values_room: _,
        } = self;
    }
}

/// Whose record it is, and how much is in it: its events are told in a report.
impl fmt::Debug for Record {
    fn fmt<W: fmt::Write>(&self, f: &mut fmt::Formatter<W>) -> fmt::Result {
        write!(f, "Record of #{}, {} events", self.pid, self.len)
    }
}

impl Model for Record {
    ghost use Rattle.std.specs.Prelude.{◌-◌, vec_capacity};
    ghost use Rattle.run_record.specs.Packed.{told, IsPacked};
    ghost use Rattle.run_record.specs.Record.{RecordValue};

    ghost Value = { RecordValue };

    ghost view = { λ r. record {
      process = r.process;
      pid = r.pid;
      parent = r.parent;
      events = told 0 r.entries.items r.values.items;
      room = r.most - r.len;
      values_room = r.values_room;
    } };

    ghost invariant = { λ r. IsPacked r.entries.items r.values.items r.time r.len r.most r.values_room
        (vec_capacity r.entries) (vec_capacity r.values) };
}

/// The report of a run: the records by ascending number, the time at its end, and whether it is whole or was cut at the
/// limit of transitions.
pub struct Report {
    pub records: Vec<Record>,
    pub end: Ticks,
    pub whole: bool,
}

/// Written out, so that it is proved here, and not anew in each crate that drops one.
impl Drop for Report {
    fn drop(self) {
        let Report {
            records: _,
            end: _,
            whole: _,
        } = self;
    }
}

impl Record {
    /// The record of an instance that has done nothing so far; `parent` is its creator, null for an instance that the
    /// system begins with. Takes no memory, and has no room.
    pub fn new(alloc: Global, process: ProcessId, pid: u32, parent: Pid) -> Self
        ensures { result ≡ record {
          process = process;
          pid = pid;
          parent = parent;
          events = [];
          room = 0;
          values_room = 0;
        } }
    {
        let entries = Vec::new(alloc);
        let values = Vec::new(alloc);
        Record {
            process,
            pid,
            parent,
            entries,
            values,
            time: 0,
            len: 0,
            most: 0,
            values_room: 0,
        }
    }

    /// The process of the instance.
    pub fn process(&self) -> ProcessId
        ensures { result ≡ self.now.process }
    {
        self.process
    }

    /// The number of the instance.
    pub fn pid(&self) -> u32
        ensures { result ≡ self.now.pid }
    {
        self.pid
    }

    /// The creator, null for an instance that the system begins with.
    pub fn parent(&self) -> Pid
        ensures { result ≡ self.now.parent }
    {
        self.parent
    }

    /// How many events there are.
    pub fn len(&self) -> usize
        ensures { result ≡ length self.now.events }
    {
        self.len
    }

    /// The events, from the first on.
    pub fn reader(&self) -> Reader<'_>
        ensures events { result ≡ self.now.events }
        ensures bound { length result < 2 ^ 64 }
    {
        let _len: usize = self.len;
        let entries = self.entries.as_slice();
        let values = self.values.as_slice();
        Reader::new(entries, values)
    }

    /// The last event, if there is one.
    pub fn last(&self) -> Option<Told<'_>>
        ensures { MatchOption result (self.now.events ≡ []) (λ told. (before : List event.Event)
            × (self.now.events ≡ before ++ event_told told ∷ [])) }
    {
        let entries = self.entries.as_slice();
        let values = self.values.as_slice();
        let (last, _) = entries.split_last()?;
        let place = values.len() - last.count();
        let (_, own) = values.split_at(place);
        let entry = last.entry_at(self.time)?;
        Some(Told { entry, values: own })
    }

    /// Whom the outputs reach that come after so many events.
    pub fn receivers_from(&self, told: usize) -> Receivers<'_>
        ensures { result ≡ receivers (drop told self.now.events) }
    {
        let entries = self.entries.as_slice();
        let count = self.len.saturating_sub(told);
        Receivers::of(last_entries(entries, count))
    }

    /// The events after so many, if they are of one time: those before them aren't read. None: they aren't of one time, and
    /// `reader` has to go to them.
    pub fn reader_from(&self, told: usize) -> Option<Reader<'_>>
        ensures { IfSome result (λ events. events ≡ drop told self.now.events) }
    {
        let entries = self.entries.as_slice();
        let values = self.values.as_slice();
        let count = self.len.saturating_sub(told);
        let last = last_entries(entries, count);
        let own = values_of_one_time(last)?;
        let place = values.len() - own;
        let (_, later) = values.split_at(place);
        Some(Reader::of_one_time(last, later, self.time))
    }

    /// Makes room for so many events and, with them, so many values. Nothing else changes, and there is never less room
    /// than before. Refused for lack of memory, and for more than 65,535 values; but never where there is that room
    /// already.
    pub fn reserve(&mut self, events: usize, values: usize) -> Result<(), AllocError>
        ensures same { self.new ≡ with_room self.old self.new.room self.new.values_room }
        ensures ok { OnOk result ((events ≤ self.new.room) × (values ≤ self.new.values_room)) }
        ensures room { self.old.room ≤ self.new.room }
        ensures values_room { self.old.values_room ≤ self.new.values_room }
        ensures enough { events ≤ self.old.room → values ≤ self.old.values_room → IsOk result }
    {
        if self.most - self.len < events {
            self.reserve_events(events)?;
        }
        if (self.values_room as usize) < values {
            self.reserve_values(values)?;
        }
        Ok(())
    }

    /// Makes room for so many events, where there is less. Each may come with a time, so it has room for two entries.
    #[inline(never)]
    fn reserve_events(&mut self, events: usize) -> Result<(), AllocError>
        requires { self.old.room < events }
        ensures same { self.new ≡ with_room self.old self.new.room self.old.values_room }
        ensures ok { OnOk result (events ≤ self.new.room) }
        ensures room { self.old.room ≤ self.new.room }
    {
        let Some(entries) = events.max(LEAST_EVENTS).checked_mul(2) else {
            return Err(AllocError);
        };
        grow(&mut self.entries, entries)?;
        let spare = self.entries.capacity() - self.entries.len();
        let most = self.len + spare / 2;
        self.most = most;
        Ok(())
    }

    /// Makes room for so many values, where there is less.
    #[inline(never)]
    fn reserve_values(&mut self, values: usize) -> Result<(), AllocError>
        requires { self.old.values_room < values }
        ensures same { self.new ≡ with_room self.old self.old.room self.new.values_room }
        ensures ok { OnOk result (values ≤ self.new.values_room) }
        ensures values_room { self.old.values_room ≤ self.new.values_room }
    {
        if values > u16::MAX as usize {
            return Err(AllocError);
        }
        grow(&mut self.values, values.max(LEAST_VALUES))?;
        let spare = self.values.capacity() - self.values.len();
        self.values_room = u16::try_from(spare).unwrap_or(u16::MAX);
        Ok(())
    }

    /// How many values these are.
    pub(crate) fn count(&self, values: &[Value]) -> u16
        requires { length values.now ≤ self.now.values_room }
        ensures { result ≡ length values.now }
    {
        let _room: u16 = self.values_room;
        values.len() as u16
    }

    /// Puts an event that has no time of its own after all others, with these values.
    #[inline(always)]
    pub(crate) fn note(&mut self, entry: Packed, values: &[Value])
        requires room { 0 < self.old.room }
        requires values_room { length values.now ≤ self.old.values_room }
        requires counts { count_of entry ≡ length values.now }
        requires event { IsTrue (is_event entry) }
        ensures { (one : event.Event) → ((time : ℕ) → told_at time entry values.now ≡ one ∷ [])
            → self.new ≡ noted self.old one }
    {
        let time = self.time;
        self.begin(Ticks::new(time), entry, values);
    }

    /// Puts an event of this time after all others, with these values.
    #[inline(always)]
    pub(crate) fn begin(&mut self, at: Ticks, entry: Packed, values: &[Value])
        requires room { 0 < self.old.room }
        requires values_room { length values.now ≤ self.old.values_room }
        requires counts { count_of entry ≡ length values.now }
        requires event { IsTrue (is_event entry) }
        ensures { (one : event.Event) → told_at at entry values.now ≡ one ∷ [] → self.new ≡ noted self.old one }
    {
        let at = at.get();
        put_time(&mut self.entries, self.time, at);
        self.time = at;
        push_all(&mut self.values, values);
        self.values_room -= values.len() as u16;
        self.entries.push_reserved(entry);
        self.len += 1;
    }
}

/// Puts the time after the other entries, if it is another one than before.
#[inline(always)]
fn put_time(entries: &mut Vec<Packed>, before: u64, at: u64)
    requires { vec_len entries.old < vec_capacity entries.old }
    ensures items { entries.new.items ≡ entries.old.items ++ time_to before at }
    ensures capacity { vec_capacity entries.new ≡ vec_capacity entries.old }
{
    if at == before {
        return;
    }
    entries.push_reserved(Packed::Time { at });
}

/// Puts the values behind those of the table.
fn push_all(table: &mut Vec<Value>, values: &[Value])
    requires { vec_len table.old + length values.now ≤ vec_capacity table.old }
    ensures items { table.new.items ≡ table.old.items ++ values.now }
    ensures capacity { vec_capacity table.new ≡ vec_capacity table.old }
{
    for value in values {
        table.push_reserved(*value);
    }
}
