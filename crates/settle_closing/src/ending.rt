//! Whether a record closes as it is to, once all is drawn that was put.

ghost use Rattle.std.specs.Prelude.{◌≡◌, ◌↔◌, IsTrue};
ghost use Rattle.port_model.specs.Ends.{OwnerState};
ghost use Rattle.run_record.specs.Told.{event_told};
ghost use Rattle.settle_closing.specs.History.{EndsAs, RestsStill};
ghost use Rattle.settle_closing.specs.PortThen.{then_of};
ghost use Rattle.settle_meaning.specs.Closed.{AreDueAfter, EndsIn, IsEnd};
ghost use Rattle.settle_meaning.specs.Living as living;

use input_port::Held;
use port_model::Ticks;
use run_record::{Entry, Record, Told};
use std::sync::Wait;

/// The state of a port as the record of its instance was closed.
#[derive(Clone, Copy, PartialEq, Eq)]
pub struct PortThen {
    /// Whether it lived.
    pub lived: bool,
    /// How many entries waited in it.
    pub waiting: usize,
}

/// Whether a record closes as it is to, in a run that ends at this time, by what is drawn from its port in the end. In
/// a `whole` run it ends with a stop or a failure, or the instance rests still. In a run that is cut each does.
pub fn ends_as<R: Wait + Copy>(
    whole: bool,
    end: Ticks,
    trace: &Record,
    then: PortThen,
    inbox: &Held<'_, R>,
) -> bool
    ensures { (first : OwnerState) → then ≡ then_of first
        → (IsTrue result ↔ EndsAs whole end trace.now.events first inbox.now.owner) }
{
    !whole || has_ended(trace) || rests_still(end, then, inbox)
}

/// Whether the record ends with a stop or a failure.
fn has_ended(trace: &Record) -> bool
    ensures { IsTrue result ↔ EndsIn IsEnd trace.now.events }
{
    match trace.last() {
        Some(told) => is_end(told),
        None => false,
    }
}

/// Whether an instance ends with this event.
fn is_end(told: Told<'_>) -> bool
    ensures { result ≡ living.is_end (event_told told.entry) }
{
    match told.entry {
        Entry::Stop => true,
        Entry::Failed { .. } => true,
        Entry::FailedAt { .. } => true,
        _ => false,
    }
}

/// Whether nothing came that could wake the instance.
fn rests_still<R: Wait + Copy>(end: Ticks, then: PortThen, inbox: &Held<'_, R>) -> bool
    ensures { (first : OwnerState) → then ≡ then_of first
        → (IsTrue result ↔ RestsStill end first inbox.now.owner) }
{
    then.lived && inbox.waiting() == then.waiting && rests_by(end, inbox)
}

/// Whether no timer is due by this time.
fn rests_by<R: Wait + Copy>(end: Ticks, inbox: &Held<'_, R>) -> bool
    ensures { IsTrue result ↔ AreDueAfter end inbox.now.owner.state.timers }
{
    match inbox.least_due() {
        Some(due) => end < due,
        None => true,
    }
}
