//! Whom a record creates.

ghost use Rattle.std.specs.Prelude.{◌≡◌, ◌++◌, ◌∷◌, [], List, OnOk};
ghost use Rattle.port_model.specs.declared.values.value.Value.{Value};
ghost use Rattle.run_record.specs.Entry.{event_of};
ghost use Rattle.run_record.specs.Event.{Event};
ghost use Rattle.settle_meaning.specs.Times.{time_by};
ghost use Rattle.settle_checks.specs.Summary.{CreatesAs, IsCreating, IsSentBefore, number_in};

use run_record::Entry;
use sdl_system::ProcessId;
use std::alloc::{AllocError, Global};

/// A create that gave a number: when it was, and how many signals its instance had sent to that number by then.
#[derive(Clone, Copy)]
pub struct Birth {
    pub process: ProcessId,
    pub number: u32,
    pub at: u64,
    pub sent: u64,
}

/// Whom an event creates: nobody, none where there is no room, or an instance.
#[derive(Clone, Copy)]
pub enum Creates {
    Nothing,
    Null(ProcessId),
    Child { process: ProcessId, number: u32 },
}

/// The creates of a record: those that gave a number, and the processes of those that gave none.
#[derive(Drop)]
pub struct Creating {
    pub births: Vec<Birth>,
    pub refused: Vec<ProcessId>,
}

impl Creating {
    /// Before the first event. Takes no memory.
    pub fn new(alloc: Global) -> Self
        ensures { IsCreating [] result }
    {
        Creating {
            births: Vec::new(alloc),
            refused: Vec::new(alloc),
        }
    }

    /// Notes an event at this time. So many signals were sent before to the number that it creates, if it creates one. For
    /// lack of memory it isn't noted.
    pub fn note(&mut self, at: u64, sent: u64, entry: Entry) -> Result<(), AllocError>
        ensures noted { OnOk result ((done : List Event) (values : List Value) → at ≡ time_by 0 done
            → IsSentBefore done entry sent → IsCreating done self.old
            → IsCreating (done ++ event_of entry values ∷ []) self.new) }
    {
        match created_by(entry) {
            Creates::Nothing => {}
            Creates::Null(process) => self.refused.push(process)?,
            Creates::Child { process, number } => self.births.push(Birth {
                process,
                number,
                at,
                sent,
            })?,
        }
        Ok(())
    }
}

/// Whom an event creates.
fn created_by(entry: Entry) -> Creates
    ensures { (values : List Value) → CreatesAs (event_of entry values) result }
{
    match entry {
        Entry::Create {
            process,
            pid: Some(number),
        } => Creates::Child { process, number },
        Entry::Create { process, pid: None } => Creates::Null(process),
        _ => Creates::Nothing,
    }
}

/// The number that the event creates.
pub fn created_in(entry: Entry) -> Option<u32>
    ensures { result ≡ number_in entry }
{
    match entry {
        Entry::Create { pid, .. } => pid,
        _ => None,
    }
}
