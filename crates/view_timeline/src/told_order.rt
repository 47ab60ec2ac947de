//! All events of a report, in an order that is given.

ghost use Rattle.std.specs.Prelude.{◌≡◌, ◌∷◌, [], List, None, Some, IfErr, IfNone, IfOk, IfSome, IsFalse, IsTrue, MatchOption, OnOk};
ghost use Rattle.run_record.specs.Record.{RecordValue};
ghost use Rattle.view_timeline.specs.Events.{Closes, IsAllTold, Keeps, TellsBefore, TellsIn, done_of};
ghost use Rattle.view_timeline.specs.Hindered.{CantGoOn, IsLeft};
ghost use Rattle.view_timeline.specs.Parts.{AreLongest, EachOnce, IsInOrderOf, IsUntold};
ghost use Rattle.view_timeline.specs.Moves.{IsLatest, IsUpTo};
ghost use Rattle.view_timeline.specs.Timeline.{AllTakes, AreArrows, AreInOrder, AreLiving, AreLookedUp, IsElseUnlinked, IsForward, IsWaiting};

use crate::events::Events;
use crate::moves::{Timeline, record_at};
use crate::untold::Untold;
use run_record::Report;
use std::alloc::{AllocError, Global};

/// Tells the events of a report in this order: for each the number of its instance, 0 for a line of the script, which
/// is no event of a record. Then how the records close, by ascending number.
///
/// Stuck where an event can't be told then: its instance doesn't live, or what it takes wasn't sent before, or it goes
/// to an instance that nothing has created, though it names no Pid; or it begins before what is told; or events are left
/// of a record at the end. None of it is so in the order in which the run was made.
pub fn timeline_in(alloc: Global, report: &Report, tellers: &[u32]) -> Result<Timeline, Untold>
    ensures each_once { IfOk result (λ told. EachOnce report.now.records.items told.moves.items) }
    ensures longest { IfOk result (λ told. AreLongest report.now.records.items told.moves.items) }
    ensures order { IfOk result (IsInOrderOf report.now.records.items tellers.now) }
    ensures forward { IfOk result (IsForward report.now.records.items) }
    ensures arrows { IfOk result (AreArrows report.now.records.items) }
    ensures all_takes { IfOk result (AllTakes report.now.records.items) }
    ensures in_order { IfOk result (AreInOrder report.now.records.items) }
    ensures waiting { IfOk result (IsWaiting report.now.records.items) }
    ensures looked_up { IfOk result (AreLookedUp report.now.records.items) }
    ensures else_unlinked { IfOk result (IsElseUnlinked report.now.records.items) }
    ensures living { IfOk result (AreLiving report.now.records.items) }
    ensures untold { IfErr result (IsUntold report.now.records.items tellers.now) }
{
    let mut events = Events::new(alloc, &report.records)?;
    let stopped = tell_all(alloc, &mut events, tellers)?;
    if let Some(number) = stopped {
        let told = events.into_timeline();
        return Err(Untold::Stuck { told, number });
    }
    let left = close_all(alloc, &mut events)?;
    let told = events.into_timeline();
    match left {
        None => Ok(told),
        Some(number) => Err(Untold::Stuck { told, number }),
    }
}

/// Tells the next event of each of these instances, one after the other. Says whose can't be told, if one can't be.
fn tell_all(
    alloc: Global,
    events: &mut Events<'_>,
    tellers: &[u32],
) -> Result<Option<u32>, AllocError>
    ensures keeps { (records : List RecordValue) → Keeps records events.old
        → OnOk result (Keeps records events.new) }
    ensures latest { (records : List RecordValue) → Keeps records events.old
        → IsLatest events.old.latest (done_of records events.old)
        → OnOk result (IsLatest events.new.latest (done_of records events.new)) }
    ensures told { (records : List RecordValue) → Keeps records events.old
        → IfOk result (λ stopped. MatchOption stopped
        (TellsIn tellers.now (done_of records events.old) (done_of records events.new))
        (λ number. TellsBefore number tellers.now (done_of records events.old) (done_of records events.new))) }
    ensures held { (records : List RecordValue) → Keeps records events.old
        → IsLatest events.old.latest (done_of records events.old)
        → IfOk result (λ stopped. IfSome stopped
        (CantGoOn records events.new.moves.items events.new.traffic.links.items)) }
{
    for number in tellers {
        let told = tell_line_or_event(alloc, events, *number)?;
        if !told {
            return Ok(Some(*number));
        }
    }
    Ok(None)
}

/// Tells the next event of an instance, if it can be told. A line of the script is no event. Says whether it's told.
fn tell_line_or_event(
    alloc: Global,
    events: &mut Events<'_>,
    number: u32,
) -> Result<bool, AllocError>
    ensures keeps { (records : List RecordValue) → Keeps records events.old
        → OnOk result (Keeps records events.new) }
    ensures latest { (records : List RecordValue) → Keeps records events.old
        → IsLatest events.old.latest (done_of records events.old)
        → OnOk result (IsLatest events.new.latest (done_of records events.new)) }
    ensures told { (records : List RecordValue) → Keeps records events.old → IfOk result (λ told. IsTrue told
        → TellsIn (number ∷ []) (done_of records events.old) (done_of records events.new)) }
    ensures not_told { (records : List RecordValue) → IfOk result (λ told. IsFalse told
        → done_of records events.new ≡ done_of records events.old) }
    ensures held { (records : List RecordValue) → Keeps records events.old
        → IsLatest events.old.latest (done_of records events.old) → IfOk result (λ told. IsFalse told
        → CantGoOn records events.new.moves.items events.new.traffic.links.items number) }
{
    if number == 0 {
        return Ok(true);
    }
    events.tell(alloc, number)
}

/// Tells how the records close, one after the other. Says of whom events are left that don't close a record, if of one.
fn close_all(alloc: Global, events: &mut Events<'_>) -> Result<Option<u32>, AllocError>
    ensures keeps { (records : List RecordValue) → Keeps records events.old
        → OnOk result (Keeps records events.new) }
    ensures up_to { (records : List RecordValue) → Keeps records events.old
        → IsUpTo None (done_of records events.old) → OnOk result (IsUpTo None (done_of records events.new)) }
    ensures closes { (records : List RecordValue) → Keeps records events.old
        → OnOk result (Closes (done_of records events.old) (done_of records events.new)) }
    ensures all { (records : List RecordValue) → Keeps records events.old
        → IfOk result (λ left. IfNone left (IsAllTold events.new)) }
    ensures left { (records : List RecordValue) → Keeps records events.old
        → IfOk result (λ left. IfSome left (IsLeft records events.new.moves.items)) }
{
    for place in 0..events.reached.len() {
        let record = record_at(place)?;
        let left = events.close(alloc, record)?;
        if let Some(number) = left {
            return Ok(Some(number));
        }
    }
    Ok(None)
}
