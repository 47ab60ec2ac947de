//! The moves of a timeline, each with what happens in it.

use port_model::Ticks;
use run_record::{Entry, Reader, Record, Report};
use std::alloc::{AllocError, Global};
use std::iter::Take;
use view_timeline::{Link, Move, Timeline, begins};

/// A move of an instance: its events, and the link of each.
#[derive(Drop)]
pub struct Passage<'r> {
    pub record: &'r Record,
    pub links: &'r [Link],
    /// When its transition began: how a record closes has no time.
    pub at: Option<Ticks>,
    /// From its first event on.
    reader: Reader<'r>,
}

impl<'r> Passage<'r> {
    /// Its events.
    pub fn events(&self) -> Take<Reader<'r>> {
        self.reader.again().take(self.links.len())
    }

    /// Its first event.
    pub fn first(&self) -> Option<Entry> {
        let mut events = self.events();
        Some(events.next()?.entry)
    }

    /// Whether a transition goes on with it, once others were told.
    pub fn goes_on(&self) -> bool {
        match self.first() {
            Some(first) => !begins(&first),
            None => false,
        }
    }
}

/// A walk along the moves of a timeline. It ends early if the timeline isn't one of this report.
#[derive(Drop)]
pub struct MoveWalk<'r> {
    report: &'r Report,
    /// The links of the events that are still to come.
    links: &'r [Link],
    /// The events of each record that are still to come.
    readers: Vec<Reader<'r>>,
}

impl<'r> MoveWalk<'r> {
    /// The walk before the first move.
    pub fn new(
        alloc: Global,
        report: &'r Report,
        timeline: &'r Timeline,
    ) -> Result<Self, AllocError> {
        let mut readers = Vec::new(alloc);
        for record in &report.records {
            readers.push(record.reader())?;
        }
        Ok(MoveWalk {
            report,
            links: timeline.links.as_slice(),
            readers,
        })
    }

    /// What happens in the next move. None if the timeline isn't one of this report.
    pub fn passage(&mut self, next: &Move) -> Option<Passage<'r>> {
        let place = next.record.0 as usize;
        let report: &'r Report = self.report;
        let record = report.records.get(place)?;
        let count = (next.end.0 as usize).checked_sub(next.first.0 as usize)?;
        let links = self.links;
        let own = links.get(..count)?;
        self.links = links.get(count..)?;
        let left = self.readers.get_mut(place)?;
        let reader = left.again();
        for _ in 0..count {
            left.next()?;
        }
        Some(Passage {
            record,
            links: own,
            at: next.at,
            reader,
        })
    }
}
