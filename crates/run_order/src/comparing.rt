//! Whether two records say the same.

ghost use Rattle.std.specs.Prelude.{◌≡◌, ◌≢◌, ◌↔◌, ◌∷◌, [], IsTrue, List, false};
ghost use Rattle.run_order.specs.Comparing.{AreOfOne, SaySame, has_values};
ghost use Rattle.run_record.specs.Event.{Event};
ghost use Rattle.run_record.specs.Told.{event_told};

use crate::entries::same_entry;
use port_model::Value;
use run_record::{Entry, Reader, Record, Told};

/// Whether two records are of the same instance, and have the same events.
pub fn say_same(left: &Record, right: &Record) -> bool
    ensures { IsTrue result ↔ SaySame left.now right.now }
{
    if !are_of_one(left, right) {
        return false;
    }
    have_same_events(left, right)
}

/// Whether they are of the same instance.
fn are_of_one(left: &Record, right: &Record) -> bool
    ensures { IsTrue result ↔ AreOfOne left.now right.now }
{
    left.process() == right.process()
        && left.pid() == right.pid()
        && left.parent() == right.parent()
}

fn have_same_events(left: &Record, right: &Record) -> bool
    ensures { IsTrue result ↔ (left.now.events ≡ right.now.events) }
{
    let mut rest = left.reader();
    for told in right.reader() {
        if !is_next(&mut rest, told) {
            return false;
        }
    }
    is_done(&mut rest)
}

/// Whether the next of these events is this one. Then they go on after it.
fn is_next(rest: &mut Reader<'_>, told: Told<'_>) -> bool
    ensures next { IsTrue result → rest.old ≡ event_told told.entry ∷ rest.new }
    ensures other { result ≡ false → (later : List Event) → rest.old ≢ event_told told.entry ∷ later }
{
    match rest.next() {
        Some(next) => is_same(next, told),
        None => false,
    }
}

/// Whether no event is left.
fn is_done(rest: &mut Reader<'_>) -> bool
    ensures { IsTrue result ↔ (rest.old ≡ []) }
{
    match rest.next() {
        Some(_) => false,
        None => true,
    }
}

/// Whether the two are the same event.
fn is_same(one: Told<'_>, other: Told<'_>) -> bool
    ensures { IsTrue result ↔ (event_told one.entry ≡ event_told other.entry) }
{
    if !same_entry(one.entry, other.entry) {
        return false;
    }
    if has_values(one.entry) {
        return are_same(one.values, other.values);
    }
    true
}

/// Whether an event of this entry has values.
fn has_values(entry: Entry) -> bool
    ensures { result ≡ has_values entry }
{
    match entry {
        Entry::Consumed { .. }
        | Entry::Prior { .. }
        | Entry::Discarded { .. }
        | Entry::Output { .. }
        | Entry::Set { .. }
        | Entry::Reset { .. } => true,
        Entry::Start { .. }
        | Entry::Provided { .. }
        | Entry::FailedAt { .. }
        | Entry::Task { .. }
        | Entry::Create { .. }
        | Entry::NextState { .. }
        | Entry::Stop
        | Entry::Failed { .. }
        | Entry::Rest { .. }
        | Entry::Cut { .. } => false,
    }
}

/// Whether these are the same values.
fn are_same(values: &[Value], others: &[Value]) -> bool
    ensures { IsTrue result ↔ (values.now ≡ others.now) }
{
    values == others
}
