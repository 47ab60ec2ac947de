//! The summary of a record.

ghost use Rattle.std.specs.Prelude.{◌++◌, ◌∷◌, [], List, IfOk, IfSome, IsTrue};
ghost use Rattle.port_model.specs.declared.values.value.Value.{Value};
ghost use Rattle.run_record.specs.Entry.{event_of};
ghost use Rattle.run_record.specs.Event.{Event};
ghost use Rattle.sdl_system.specs.declared.id.ProcessId.{ProcessId};
ghost use Rattle.settle_checks.specs.Summary.{IsSentBefore, IsSummary, IsSummedUp};

use crate::summing::course::Course;
use crate::summing::creating::{Creating, created_in};
use crate::summing::fate::Fate;
use crate::summing::sending::Sending;
use crate::summing::taking::Taking;
use run_record::{Entry, Record};
use sdl_system::ProcessId;
use std::alloc::{AllocError, Global};

/// What one look at the events of a record tells.
#[derive(Drop)]
pub struct Summary {
    pub course: Course,
    pub fate: Fate,
    pub creating: Creating,
    pub sending: Sending,
    pub taking: Taking,
}

/// The summary of a record. None: times fall in it, or it has more of something than can be counted.
pub fn summary_of(alloc: Global, trace: &Record) -> Result<Option<Summary>, AllocError>
    ensures { IfOk result (λ summary. IfSome summary (IsSummary trace.now)) }
{
    let process = trace.process();
    let mut summary = Summary::new(alloc);
    for told in trace.reader() {
        let noted = summary.note(process, told.entry)?;
        if !noted {
            return Ok(None);
        }
    }
    Ok(Some(summary))
}

impl Summary {
    /// Before the first event. Takes no memory.
    fn new(alloc: Global) -> Self
        ensures { (process : ProcessId) → IsSummedUp process [] result }
    {
        Summary {
            course: Course::new(),
            fate: Fate::new(),
            creating: Creating::new(alloc),
            sending: Sending::new(alloc),
            taking: Taking::new(alloc),
        }
    }

    /// Notes an event of an instance of this process. False: its time is less than one before, or there is more of
    /// something than can be counted.
    fn note(&mut self, process: ProcessId, entry: Entry) -> Result<bool, AllocError>
        ensures { IfOk result (λ noted. IsTrue noted → (done : List Event) (values : List Value)
            → IsSummedUp process done self.old → IsSummedUp process (done ++ event_of entry values ∷ []) self.new) }
    {
        let at = self.course.time;
        let Some(sent) = self.sent_before(entry) else {
            return Ok(false);
        };
        if !self.course.note(entry) {
            return Ok(false);
        }
        self.fate.note(entry);
        self.creating.note(at, sent, entry)?;
        if !self.sending.note(process, at, entry)? {
            return Ok(false);
        }
        self.taking.note(entry)
    }

    /// How many signals were sent to the number that the event creates, 0 if it creates none. None: more than can be
    /// counted.
    fn sent_before(&self, entry: Entry) -> Option<u64>
        ensures { IfSome result (λ sent. (process : ProcessId) (done : List Event) → IsSummedUp process done self.now
            → IsSentBefore done entry sent) }
    {
        match created_in(entry) {
            None => Some(0),
            Some(number) => self.sending.flows.count_with(number),
        }
    }
}
