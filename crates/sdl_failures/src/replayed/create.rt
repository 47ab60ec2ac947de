//! With what variables an instance began.

ghost use Rattle.std.specs.Prelude.{◌≡◌, ◌<◌, Contains, IfOk, IfSome, List, Some, slice_get, true};
ghost use Rattle.sdl_system.specs.declared.process.Process as processes;
ghost use Rattle.run_record.specs.Variables.{VariableList};
ghost use Rattle.port_model.specs.Value.{ValueList};
ghost use Rattle.run_record.specs.Entry.{event_of};
ghost use Rattle.run_record.specs.Event as event;
ghost use Rattle.run_record.specs.Event.{Event};
ghost use Rattle.run_semantics.specs.Instance.{parameters_from};
ghost use Rattle.sdl_failures.specs.Received.{variables_from};
ghost use Rattle.sdl_failures.specs.Replay.{HasCome, IsAtCreate};
ghost use Rattle.sdl_failures.specs.Stands.{BeginsWith, Creates, identity_of};

use crate::replayed::cause::parameters_of;
use crate::replayed::part::is_number;
use crate::replayed::replay::Replay;
use crate::replayed::split::{Goal, events_before};
use crate::replayed::spot::Spot;
use port_model::{Pid, Value, Values};
use run_record::{Entry, Record, Variables, evaluate_all};
use sdl_system::{Creation, Process, ProcessId, Statement, System};
use std::alloc::{AllocError, Global};

/// The variables with which the instance of a record began. None: the records don't tell.
pub fn variables_of(
    alloc: Global,
    system: &System,
    records: &[Record],
    trace: &Record,
) -> Result<Option<Variables>, AllocError>
    ensures { IfOk result (λ found.
        IfSome found (λ variables. BeginsWith system.now records.now trace.now variables)) }
{
    let number = trace.process();
    let Some(process) = system.process(number) else {
        return Ok(None);
    };
    if is_first(trace) {
        let variables = variables_from(alloc, process, &Values::none(alloc))?;
        return Ok(Some(variables));
    }
    let Some(parent) = parent_of(records, trace) else {
        return Ok(None);
    };
    let before = variables_of(alloc, system, records, parent)?;
    let Some(before) = before else {
        return Ok(None);
    };
    let given = values_of(alloc, system, parent, before, number, trace.pid())?;
    let Some(values) = given else {
        return Ok(None);
    };
    let variables = variables_from(alloc, process, &values)?;
    Ok(Some(variables))
}

/// Whether no instance created that of a record.
fn is_first(trace: &Record) -> bool
    ensures { result ≡ true → trace.now.parent ≡ Pid.Null }
{
    match trace.parent() {
        Pid::Null => true,
        _ => false,
    }
}

/// The record of the instance that created that of a record, which is one of a lower number.
fn parent_of<'r>(records: &'r [Record], trace: &Record) -> Option<&'r Record>
    ensures there { IfSome result (λ found. Contains records.now found.now) }
    ensures parent { IfSome result (λ found. trace.now.parent ≡ Pid.Of found.now.pid) }
    ensures lower { IfSome result (λ found. found.now.pid < trace.now.pid) }
{
    let Pid::Of(number) = trace.parent() else {
        return None;
    };
    if number >= trace.pid() {
        return None;
    }
    record_of(records, number)
}

/// The record of the instance of this number.
fn record_of(records: &[Record], number: u32) -> Option<&Record>
    ensures there { IfSome result (λ found. Contains records.now found.now) }
    ensures number { IfSome result (λ found. found.now.pid ≡ number) }
{
    for one in records {
        if one.pid() == number {
            return Some(one);
        }
    }
    None
}

/// The values of its parameters with which an instance that began with these variables created that of this number.
/// None: its record doesn't tell.
fn values_of(
    alloc: Global,
    system: &System,
    parent: &Record,
    variables: Variables,
    created: ProcessId,
    number: u32,
) -> Result<Option<Values>, AllocError>
    ensures { IfOk result (λ found. IfSome found (λ values. (maker : processes.Process)
        → slice_get system.now.processes parent.now.process.0 ≡ Some maker
        → Creates system.now maker (identity_of parent.now) variables parent.now.events created number values)) }
{
    let own = parent.process();
    let Some(maker) = system.process(own) else {
        return Ok(None);
    };
    let goal = Goal::Created(number);
    let before = events_before(parent, goal)?;
    let Some(before) = before else {
        return Ok(None);
    };
    let mut replay = Replay::new(alloc, system, maker, parent, variables)?;
    let told = replay.tell_all(alloc, before)?;
    if !told {
        return Ok(None);
    }
    let entered = replay.enter(alloc)?;
    if !entered {
        return Ok(None);
    }
    let fits = replay.walk(alloc, goal, parent.len())?;
    if !fits {
        return Ok(None);
    }
    replay.created(alloc, created, number)
}

impl<'r> Replay<'r> {
    /// The values of the create at which it stands, if that is the one of this instance.
    fn created(
        &self,
        alloc: Global,
        created: ProcessId,
        number: u32,
    ) -> Result<Option<Values>, AllocError>
        ensures { IfOk result (λ found. IfSome found (λ values. (variables : VariableList) (all : List Event)
            → HasCome variables all self.now → Creates self.now.system.now self.now.process.now self.now.who
            variables all created number values)) }
    {
        let Some(creation) = self.creation(created, number) else {
            return Ok(None);
        };
        let sorts = parameters_of(alloc, self.system, created)?;
        let knowledge = self.known.knowledge(self.system, self.who);
        match evaluate_all(alloc, &creation.values, &sorts, &knowledge) {
            Ok(values) => Ok(Some(values)),
            Err(_) => Ok(None),
        }
    }

    /// The create at which it stands, if that is the one of this instance.
    fn creation(&self, created: ProcessId, number: u32) -> Option<&'r Creation>
        ensures { IfSome result (λ creation. IsAtCreate self.now creation.now created number) }
    {
        let Spot::At { node, part } = self.spot else {
            return None;
        };
        if part != 0 {
            return None;
        }
        let next = self.left.next()?;
        if !tells_create(next.entry, created, number) {
            return None;
        }
        let found = self.process.node(node)?;
        let Statement::Create(creation) = &found.statement else {
            return None;
        };
        if !is_process(creation.process, created) {
            return None;
        }
        Some(creation)
    }
}

/// Whether an event is the create of this instance. It has no values.
fn tells_create(entry: Entry, created: ProcessId, number: u32) -> bool
    ensures { result ≡ true → (values : ValueList) → event_of entry values ≡ event.Create created (Some number) }
{
    let Entry::Create { process, pid } = entry else {
        return false;
    };
    if !is_process(process, created) {
        return false;
    }
    match pid {
        Some(own) => is_number(own, number),
        None => false,
    }
}

fn is_process(one: ProcessId, wanted: ProcessId) -> bool
    ensures { result ≡ true → one ≡ wanted }
{
    is_number(one.0, wanted.0)
}

/// The variables before the start: parameters have the values that there are, the others those that they begin with.
fn variables_from(
    alloc: Global,
    process: &Process,
    values: &Values,
) -> Result<Variables, AllocError>
    ensures { IfOk result (λ variables. variables ≡ variables_from process.now values.now) }
{
    let mut list = parameters_from(alloc, process.parameters, values)?;
    for variable in process.variables.iter().skip(process.parameters as usize) {
        list.push(variable.initial)?;
    }
    Ok(Variables::new(list))
}

/// So many parameters, with the values that there are.
fn parameters_from(
    alloc: Global,
    count: u32,
    values: &Values,
) -> Result<Vec<Option<Value>>, AllocError>
    ensures { IfOk result (λ list. list.items ≡ parameters_from count values.now) }
{
    let mut list = Vec::new(alloc);
    for index in 0..count as usize {
        list.push(values.get(index))?;
    }
    Ok(list)
}
