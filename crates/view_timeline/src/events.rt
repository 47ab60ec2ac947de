//! The events that are told so far.

ghost use Rattle.std.specs.Prelude.{◌≡◌, ◌∷◌, ◌++◌, ◌⊎◌, ℕ, [], List, None, Some, false, true, IfNone, IfOk, IfSome, IsFalse, IsTrue, OnOk, if◌then◌else◌};
ghost use Rattle.port_model.specs.Value.{ValueList};
ghost use Rattle.run_record.specs.Entry.{event_of};
ghost use Rattle.run_record.specs.Record.{RecordValue};
ghost use Rattle.view_timeline.specs.Events.{Closes, EndsElsewhere, Grows, HasLeft, IsBarred, IsDone, IsInTime, IsNext, IsOutOfTime, Keeps, Lengthens, done_of, has_number, latest_after, reached, timeline_of};
ghost use Rattle.view_timeline.specs.Did.{begins, did, is_closing, taken_by, time_of};
ghost use Rattle.view_timeline.specs.Hindered.{CantGoOn, IsLeft};
ghost use Rattle.view_timeline.specs.Moves.{IsLatest, IsUpTo};
ghost use Rattle.view_timeline.specs.Parts.{by_all};
ghost use Rattle.view_timeline.specs.Traffic.{IsMissing, IsToBegun, IsToUnbegun, ledger_of};

use crate::admitting::admit;
use crate::cursor::{Cursor, Next};
use crate::entries::{begins, looked_up, time_of};
use crate::moves::{EntryId, Move, RecordId, Timeline, record_at};
use crate::traffic::Traffic;
use port_model::Ticks;
use run_record::{Entry, Record};
use std::alloc::{AllocError, Global};

/// How far a record is told: what is left of it, and when its last transition began.
#[derive(Drop)]
pub struct Reached<'r> {
    pub cursor: Cursor<'r>,
    pub began: Option<Ticks>,
}

/// The parts of transitions that are told so far; how far each record is told; who lives and what waits. The last
/// transition began at the latest time.
#[derive(Drop)]
pub struct Events<'r> {
    pub moves: Vec<Move>,
    pub reached: Vec<Reached<'r>>,
    pub traffic: Traffic<'r>,
    pub latest: Ticks,
}

impl<'r> Events<'r> {
    /// Nothing is told. Those live with which the system begins.
    pub fn new(alloc: Global, records: &'r [Record]) -> Result<Self, AllocError>
        ensures keeps { IfOk result (Keeps records.now) }
        ensures latest { IfOk result (λ events. IsLatest events.latest (done_of records.now events)) }
        ensures nothing { IfOk result (λ events. done_of records.now events ≡ []) }
    {
        let mut reached = Vec::new(alloc);
        let mut traffic = Traffic::new(alloc);
        for record in records {
            let cursor = Cursor::new(record)?;
            reached.push(Reached {
                cursor,
                began: None,
            })?;
            admit(&mut traffic, record)?;
        }
        let moves = Vec::new(alloc);
        let latest = Ticks::new(0);
        Ok(Events {
            moves,
            reached,
            traffic,
            latest,
        })
    }

    /// Tells the next event of the instance of this number, if it can be told now: the instance lives, and what it
    /// takes is there; it goes to nobody by a look-up who hasn't begun; it begins no earlier than what is told; and it
    /// doesn't close a record. Says whether it's told; else nothing changes.
    pub fn tell(&mut self, alloc: Global, number: u32) -> Result<bool, AllocError>
        ensures keeps { (records : List RecordValue) → Keeps records self.old → OnOk result (Keeps records self.new) }
        ensures latest { (records : List RecordValue) → Keeps records self.old
            → IsLatest self.old.latest (done_of records self.old)
            → OnOk result (IsLatest self.new.latest (done_of records self.new)) }
        ensures told { (records : List RecordValue) → Keeps records self.old → IfOk result (λ told. IsTrue told
            → by_all (done_of records self.new) ≡ by_all (done_of records self.old) ++ number ∷ []) }
        ensures not_told { IfOk result (λ told. IsFalse told → self.new.moves ≡ self.old.moves) }
        ensures held { (records : List RecordValue) → Keeps records self.old
            → IsLatest self.old.latest (done_of records self.old) → IfOk result (λ told. IsFalse told
            → CantGoOn records self.new.moves.items self.new.traffic.links.items number) }
    {
        let place = self.place_of(number)?;
        let Some(place) = place else {
            return Ok(false);
        };
        let Some(next) = self.next_of(place) else {
            return Ok(false);
        };
        if !self.may_tell(&next) {
            return Ok(false);
        }
        let latest = latest_after(self.latest, &next.entry);
        let told = self.note(alloc, place, next)?;
        if !told {
            return Ok(false);
        }
        self.latest = latest;
        Ok(true)
    }

    /// Tells how a record closes, if that is all that is left of it. Says of whom events are left then.
    pub fn close(&mut self, alloc: Global, place: RecordId) -> Result<Option<u32>, AllocError>
        ensures keeps { (records : List RecordValue) → Keeps records self.old → OnOk result (Keeps records self.new) }
        ensures up_to { (records : List RecordValue) → Keeps records self.old
            → IsUpTo None (done_of records self.old) → OnOk result (IsUpTo None (done_of records self.new)) }
        ensures closes { (records : List RecordValue) → Keeps records self.old
            → OnOk result (Closes (done_of records self.old) (done_of records self.new)) }
        ensures told { IfOk result (λ whose. IfNone whose (IsDone self.new place.0)) }
        ensures left { (records : List RecordValue) → Keeps records self.old
            → IfOk result (λ whose. IfSome whose (IsLeft records self.new.moves.items)) }
        ensures others { OnOk result ((other : ℕ) → (other ≡ place.0 → ⊥)
            → reached self.new other ≡ reached self.old other) }
    {
        let Some(next) = self.next_of(place) else {
            return Ok(None);
        };
        let number = next.number;
        if !is_closing(&next.entry) {
            return Ok(Some(number));
        }
        if !self.traffic.lives(number) {
            return Ok(Some(number));
        }
        let told = self.note(alloc, place, next)?;
        if !told {
            return Ok(Some(number));
        }
        Ok(self.whose_next(place))
    }

    /// Whose the next event of a record is.
    fn whose_next(&self, place: RecordId) -> Option<u32>
        ensures told { IfNone result (IsDone self.now place.0) }
        ensures left { IfSome result (HasLeft self.now place.0) }
    {
        match self.next_of(place) {
            Some(next) => Some(next.number),
            None => None,
        }
    }

    /// Where a record of the instance of this number is, if there is one. Records stand by ascending number, from 1 on, so
    /// it's at the place before the number, if no number was spent.
    fn place_of(&self, number: u32) -> Result<Option<RecordId>, AllocError>
        ensures found { IfOk result (λ place. IfSome place
            (λ place. has_number number (reached self.now place.0) ≡ true)) }
        ensures none { IfOk result (λ place. IfNone place
            ((place : ℕ) → has_number number (reached self.now place) ≡ false)) }
    {
        let usual = RecordId(number.saturating_sub(1));
        if self.is_of(usual, number) {
            return Ok(Some(usual));
        }
        for place in 0..self.reached.len() {
            let record = record_at(place)?;
            if self.is_of(record, number) {
                return Ok(Some(record));
            }
        }
        Ok(None)
    }

    /// Whether the record at this place is one of the instance of this number.
    fn is_of(&self, place: RecordId, number: u32) -> bool
        ensures { result ≡ has_number number (reached self.now place.0) }
    {
        match self.reached.get(place.0 as usize) {
            Some(reached) => reached.cursor.number() == number,
            None => false,
        }
    }

    /// The next event of a record.
    fn next_of(&self, place: RecordId) -> Option<Next<'r>>
        ensures next { IfSome result (λ next. IsNext self.now place.0 next) }
        ensures none { IfNone result (IsDone self.now place.0) }
    {
        let reached = self.reached.get(place.0 as usize)?;
        reached.cursor.next()
    }

    /// Whether the next event may be told now, if what it takes is there.
    fn may_tell(&self, next: &Next<'_>) -> bool
        ensures living { IsTrue result → (ledger_of self.now.traffic).living next.now.number ≡ true }
        ensures to_begun { IsTrue result
            → IsToBegun (event_of next.now.entry next.now.values.now) (ledger_of self.now.traffic) }
        ensures in_time { IsTrue result → IsInTime self.now.latest (event_of next.now.entry next.now.values.now) }
        ensures barred { IsFalse result
            → IsBarred self.now next.now.number (event_of next.now.entry next.now.values.now) }
    {
        if !self.traffic.lives(next.number) {
            return false;
        }
        if !goes_to_begun(&self.traffic, &next.entry) {
            return false;
        }
        is_in_time(self.latest, &next.entry)
    }

    /// Tells the next event of a record, if what it takes is there. Says whether it is; else nothing changes.
    fn note(&mut self, alloc: Global, place: RecordId, next: Next<'r>) -> Result<bool, AllocError>
        requires next { IsNext self.old place.0 next }
        requires living { (ledger_of self.old.traffic).living next.number ≡ true }
        requires to_begun { IsToBegun (event_of next.entry next.values.now) (ledger_of self.old.traffic) }
        ensures keeps { (records : List RecordValue) → Keeps records self.old → OnOk result (Keeps records self.new) }
        ensures told { (records : List RecordValue) → Keeps records self.old → IfOk result (λ told. IsTrue told
            → done_of records self.new ≡ done_of records self.old
            ++ did next.entry.number (event_of next.entry.entry next.entry.values.now) ∷ []) }
        ensures not_told { IfOk result (λ told. IsFalse told → self.new.moves ≡ self.old.moves) }
        ensures reached { IfOk result (λ told. IsFalse told → self.new.reached ≡ self.old.reached) }
        ensures links { IfOk result (λ told. IsFalse told
            → self.new.traffic.links.items ≡ self.old.traffic.links.items) }
        ensures missing { IfOk result (λ told. IsFalse told
            → IsMissing (taken_by next.entry.number (event_of next.entry.entry next.entry.values.now))
            (ledger_of self.old.traffic)) }
        ensures others { OnOk result ((other : ℕ) → (other ≡ place.0 → ⊥)
            → reached self.new other ≡ reached self.old other) }
        ensures latest { self.new.latest ≡ self.old.latest }
    {
        let began = began_after(self.began(place), &next.entry);
        let Next {
            number,
            first,
            entry,
            values,
            rest,
        } = next;
        let noted = self.traffic.note(alloc, number, &entry, values)?;
        if !noted {
            return Ok(false);
        }
        let now = reached_at(rest, began);
        let part = Move {
            record: place,
            first: EntryId(first),
            end: EntryId(now.cursor.told()),
            at: now.began,
        };
        self.grow(&part, begins(&entry))?;
        self.reached[place.0 as usize] = now;
        Ok(true)
    }

    /// When the last transition of a record began.
    fn began(&self, place: RecordId) -> Option<Ticks>
        ensures { IfSome (reached self.now place.0) (λ one. result ≡ one.began) }
    {
        match self.reached.get(place.0 as usize) {
            Some(reached) => reached.began,
            None => None,
        }
    }

    /// Adds a part of one event. It makes the last part longer, if it goes on with that.
    fn grow(&mut self, part: &Move, begins: bool) -> Result<(), AllocError>
        ensures grows { OnOk result (Grows self.old.moves.items self.new.moves.items part.now begins) }
        ensures reached { self.new.reached ≡ self.old.reached }
        ensures traffic { self.new.traffic ≡ self.old.traffic }
        ensures latest { self.new.latest ≡ self.old.latest }
    {
        if lengthen(&mut self.moves, part, begins) {
            return Ok(());
        }
        self.moves.push(*part)?;
        Ok(())
    }

    /// The timeline that was told.
    pub fn into_timeline(self) -> Timeline
        ensures { result ≡ timeline_of self.entry }
    {
        let Events { moves, traffic, .. } = self;
        let Traffic {
            links,
            arrows,
            living,
            ..
        } = traffic;
        Timeline {
            moves,
            links,
            arrows,
            living,
        }
    }
}

/// Makes the last part longer, up to the end of another one, if it goes on with that: if both are of one record, and no
/// transition begins. Says whether it does.
fn lengthen(moves: &mut [Move], part: &Move, begins: bool) -> bool
    ensures goes_on { IsTrue result → begins ≡ false }
    ensures longer { IsTrue result → Lengthens moves.old moves.new part.now }
    ensures apart { IsFalse result → (begins ≡ true) ⊎ EndsElsewhere moves.old part.now }
    ensures same { IsFalse result → moves.new ≡ moves.old }
{
    if begins {
        return false;
    }
    let Some(last) = moves.last_mut() else {
        return false;
    };
    if last.record.0 != part.record.0 {
        return false;
    }
    last.end = part.end;
    true
}

/// A record that is told up to there, whose last transition began then.
fn reached_at(cursor: Cursor<'_>, began: Option<Ticks>) -> Reached<'_>
    ensures { result ≡ record { cursor = cursor.entry; began = began } }
{
    Reached { cursor, began }
}

/// Whether the receiver has begun, if an output names no Pid.
fn goes_to_begun(traffic: &Traffic<'_>, entry: &Entry) -> bool
    ensures begun { (values : ValueList) → IsTrue result
        → IsToBegun (event_of entry.now values) (ledger_of traffic.now) }
    ensures unbegun { (values : ValueList) → IsFalse result
        → IsToUnbegun (event_of entry.now values) (ledger_of traffic.now) }
{
    match looked_up(entry) {
        Some(receiver) => traffic.has_begun(receiver),
        None => true,
    }
}

/// Whether an event may be told once something began at this time: it closes no record, and begins no earlier.
fn is_in_time(latest: Ticks, entry: &Entry) -> bool
    ensures in_time { (values : ValueList) → IsTrue result → IsInTime latest (event_of entry.now values) }
    ensures out_of_time { (values : ValueList) → IsFalse result → IsOutOfTime latest (event_of entry.now values) }
{
    if !begins(entry) {
        return true;
    }
    match time_of(entry) {
        Some(at) => latest.get() <= at.get(),
        None => false,
    }
}

/// The latest time once this is told.
fn latest_after(latest: Ticks, entry: &Entry) -> Ticks
    ensures { (values : ValueList) → result ≡ latest_after latest (event_of entry.now values) }
{
    match time_of(entry) {
        Some(at) => at,
        None => latest,
    }
}

/// When the last transition began once this is told, if the one before it began then.
fn began_after(before: Option<Ticks>, entry: &Entry) -> Option<Ticks>
    ensures { (values : ValueList) → result
        ≡ (if begins (event_of entry.now values) then time_of (event_of entry.now values) else before) }
{
    if begins(entry) {
        time_of(entry)
    } else {
        before
    }
}

/// Whether a record closes with the entry.
fn is_closing(entry: &Entry) -> bool
    ensures { (values : ValueList) → result ≡ is_closing (event_of entry.now values) }
{
    match entry {
        Entry::Rest { .. } | Entry::Cut { .. } => true,
        _ => false,
    }
}
