//! One order of all that was done.

ghost use Rattle.std.specs.Prelude.{◌≡◌, IfOk};

use indexmap::IndexSet;
use port_model::Ticks;
use std::alloc::AllocError;

/// A record of a report, by its place among them, from 0.
#[derive(Clone, Copy, PartialEq, Eq)]
pub struct RecordId(pub u32);

/// The record at this place. Refused where a number has no room for it.
pub fn record_at(place: usize) -> Result<RecordId, AllocError>
    ensures { IfOk result (λ made. made.0 ≡ place) }
{
    match u32::try_from(place) {
        Ok(number) => Ok(RecordId(number)),
        Err(_) => Err(AllocError),
    }
}

/// An entry of a record, from 0.
#[derive(Clone, Copy, PartialEq, Eq)]
pub struct EntryId(pub u32);

/// An event of a timeline, from 0 in the order of the moves.
#[derive(Clone, Copy, PartialEq, Eq)]
pub struct EventId(pub u32);

/// An arrow of a timeline, from 0 in the order of the takes.
#[derive(Clone, Copy, PartialEq, Eq)]
pub struct ArrowId(pub u32);

/// A transition of an instance or a part of one, or the rest or the cut with which its record closes: the entries of a
/// record from `first` up to `end`, without that. A part that doesn't begin its transition goes on with it.
#[derive(Clone, Copy, PartialEq, Eq)]
pub struct Move {
    pub record: RecordId,
    pub first: EntryId,
    pub end: EntryId,
    /// When its transition began. A record closes at no time.
    pub at: Option<Ticks>,
}

/// What an event has to do with another one.
#[derive(Clone, Copy, PartialEq, Eq)]
pub enum Link {
    /// Nothing.
    Plain,
    /// A signal went from one instance to another. The number is at the output and at the take.
    Arrow(ArrowId),
    /// An output to an instance that didn't live.
    Gone,
    /// An output that nobody took: it waits in the port of an instance, or was there when that ended.
    Waits,
}

/// One order of all that was done: the moves, and the links of all events in the order of the moves. The arrows have
/// the numbers below `arrows`. `living` has the numbers of the instances that live on: what waits for another one is
/// gone with it.
pub struct Timeline {
    pub moves: Vec<Move>,
    pub links: Vec<Link>,
    pub arrows: u32,
    pub living: IndexSet<u32>,
}

/// Written out, so that it is proved here, and not anew in each crate that drops one.
impl Drop for Timeline {
    fn drop(self) {
        let Timeline {
            moves: _,
            links: _,
            arrows: _,
            living: _,
        } = self;
    }
}
