//! What the records of a run say of what a step can't know.

use run_record::{Entry, Reader, Record};
use sdl_system::{ProcessId, Target};
use std::alloc::{AllocError, Global};

/// What the record of an instance says of its next step: whom its outputs reach, and which numbers its creates give.
#[derive(Drop)]
pub struct Answers<'r> {
    /// The events of its record that weren't asked so far.
    events: Option<Reader<'r>>,
    /// The records of all instances, by ascending number.
    records: &'r [Record],
    /// For each process the number of an instance that lives, if one is to be reached.
    living: Vec<Option<u32>>,
}

impl<'r> Answers<'r> {
    /// The answers of these records, of so many processes. No instance is asked so far.
    pub fn new(alloc: Global, records: &'r [Record], processes: usize) -> Result<Self, AllocError> {
        Ok(Answers {
            events: None,
            records,
            living: vec![in alloc; None; processes]?,
        })
    }

    /// The next answers are those of these events.
    pub fn ask(&mut self, events: Option<Reader<'r>>) {
        self.events = events;
    }

    /// Whom the next output reaches.
    pub fn target(&mut self) -> Option<Target> {
        for _ in 0..u64::MAX {
            if let Entry::Output { target, .. } = self.next()? {
                return Some(target);
            }
        }
        None
    }

    /// The number that the next create gives.
    pub fn number(&mut self) -> Option<u32> {
        for _ in 0..u64::MAX {
            if let Entry::Create { pid, .. } = self.next()? {
                return pid;
            }
        }
        None
    }

    fn next(&mut self) -> Option<Entry> {
        let events = self.events.as_mut()?;
        let told = events.next()?;
        Some(told.entry)
    }

    /// For each process the least number of its living instances, such that this target is reached, if it can be.
    pub fn living_for(&mut self, target: Option<Target>) -> &[Option<u32>] {
        self.forget();
        if let Some(Target::Instance(number)) = target
            && let Some(process) = self.process_of(number)
        {
            let place = process.0 as usize;
            if place < self.living.len() {
                self.living[place] = Some(number);
            }
        }
        &self.living
    }

    fn forget(&mut self) {
        for one in &mut self.living {
            *one = None;
        }
    }

    /// The process of the instance with this number.
    fn process_of(&self, number: u32) -> Option<ProcessId> {
        let place = number.checked_sub(1)? as usize;
        match self.records.get(place) {
            Some(trace) => Some(trace.process()),
            None => None,
        }
    }
}
