//! What is left of a run, in columns.

ghost use Rattle.std.specs.Prelude.{IfOk};
ghost use Rattle.settle_run.specs.Parts.{AreColumnsOf, AreParts};

use input_port::Held;
use port_model::CourseLog;
use run_record::{Record, RunError};
use settle_closing::{Closing, PortThen};
use std::alloc::Global;
use std::sync::Wait;
use threads_instance::{Gifts, Left};
use threads_ports::{Peers, Run};

/// The parts of a run that are left: the records, what the instance of each was given and gave, what is kept of its course,
/// and their ports.
#[derive(Drop)]
pub struct Parts<'p, J: Run, R: Wait + Copy> {
    pub records: Vec<Record>,
    pub gifts: Vec<Gifts>,
    pub logs: Vec<CourseLog>,
    pub ports: PortParts<'p, J, R>,
}

/// The port of each record, what was known of it as the record was closed, and the senders of all places, the
/// environment's first.
#[derive(Drop)]
pub struct PortParts<'p, J: Run, R: Wait + Copy> {
    pub inboxes: Vec<Held<'p, R>>,
    pub thens: Vec<PortThen>,
    pub places: Vec<Peers<J>>,
}

/// The parts of what is left. Lost: a record was closed in another way than the run ends.
pub fn parts_of<'p, J: Run, R: Wait + Copy>(
    alloc: Global,
    whole: bool,
    closings: Vec<Closing<'p, J, R>>,
    environment: Peers<J>,
) -> Result<Parts<'p, J, R>, RunError>
    ensures parts { IfOk result (λ parts. AreParts J.system J.ports whole environment parts.records.items
        parts.gifts.items parts.ports.inboxes.items parts.ports.thens.items parts.ports.places.items) }
    ensures columns { IfOk result (λ parts. AreColumnsOf environment closings.entry.items parts.records.items
        parts.logs.items parts.ports.inboxes.items parts.ports.places.items) }
{
    let count = closings.len();
    let mut records = Vec::with_capacity(alloc, count)?;
    let mut gifts = Vec::with_capacity(alloc, count)?;
    let mut logs = Vec::with_capacity(alloc, count)?;
    let mut inboxes = Vec::with_capacity(alloc, count)?;
    let mut thens = Vec::with_capacity(alloc, count)?;
    let mut places = Vec::new(alloc);
    places.push(environment)?;
    for closing in closings {
        if closing.whole() != whole {
            return Err(RunError::Lost(closing.trace().pid()));
        }
        closing.is_left();
        thens.push(closing.port_then())?;
        let Left {
            trace,
            inbox,
            peers,
            gifts: own,
            course,
        } = closing.into_left();
        records.push(trace)?;
        gifts.push(own)?;
        logs.push(course)?;
        inboxes.push(inbox)?;
        places.push(peers)?;
    }
    let ports = PortParts {
        inboxes,
        thens,
        places,
    };
    Ok(Parts {
        records,
        gifts,
        logs,
        ports,
    })
}
