//! The instances that failed, in the order of time.

use crate::replayed::failure_of;
use run_record::{Entry, Record};
use std::alloc::{AllocError, Global};
use view_timeline::Cursor;

/// An instance that failed at this time, by the place of its record in a report.
#[derive(Clone, Copy, PartialEq, Eq, PartialOrd, Ord)]
pub struct Fallen {
    pub at: u64,
    pub index: usize,
}

/// Lists the instances that failed, by time, and then as their records stand.
pub fn fallen_of(alloc: Global, records: &[Record]) -> Result<Vec<Fallen>, AllocError> {
    let mut list = Vec::new(alloc);
    for (index, record) in records.iter().enumerate() {
        if failure_of(record).is_some() {
            let at = last_time(record)?;
            list.push(Fallen { at, index })?;
        }
    }
    list.sort()?;
    Ok(list)
}

/// The time of the latest transition of a record.
fn last_time(record: &Record) -> Result<u64, AllocError> {
    let mut left = Cursor::new(record)?;
    let mut at = 0;
    for _event in 0..record.len() {
        let Some(next) = left.next() else {
            return Ok(at);
        };
        at = time_of(next.entry).unwrap_or(at);
        left = next.rest;
    }
    Ok(at)
}

fn time_of(entry: Entry) -> Option<u64> {
    match entry {
        Entry::Start { at } => Some(at),
        Entry::Consumed { at, .. } => Some(at),
        Entry::Prior { at, .. } => Some(at),
        Entry::Discarded { at, .. } => Some(at),
        Entry::Provided { at, .. } => Some(at),
        Entry::FailedAt { at, .. } => Some(at),
        _ => None,
    }
}
