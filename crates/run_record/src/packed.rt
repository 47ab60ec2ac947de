//! Entries, in which a record keeps its events.

ghost use Rattle.std.specs.Prelude.{◌≡◌};
ghost use Rattle.run_record.specs.Packed.{count_of, entry_at, is_event, origin_of, receiver_in, target_of, time_after};
ghost use Rattle.run_record.specs.declared.entry.Entry.TheVariants as kept;

use crate::entry::{Entry, Stimulus};
use crate::failure::Failure;
use crate::parts::{OriginKind, TargetKind};
use port_model::{Pid, SignalId, Value};
use sdl_system::{Dest, ProcessId, StateId, VariableId};

/// An event without its values and its time; or the time, in ticks, of the events from there on. `count` is how many
/// values it has, `from` and `target` are numbers of instances, and `due` is in ticks.
///
/// Small fields come first, and an enum with a value that stands beside two words more is kept in two parts, so that an
/// entry has 16 bytes. An event of which an order of all events has to know more has a word free for that, a create two
/// bytes. An output to a process has none: the entry of a time has a word free for it.
#[derive(Clone, Copy)]
pub enum Packed {
    Time {
        at: u64,
    },
    Start,
    Consumed {
        origin: OriginKind,
        count: u16,
        name: SignalId,
        from: u32,
    },
    Prior {
        origin: OriginKind,
        count: u16,
        name: SignalId,
        from: u32,
    },
    Discarded {
        origin: OriginKind,
        count: u16,
        name: SignalId,
        from: u32,
    },
    Provided {
        number: u32,
    },
    FailedAt {
        why: Failure,
    },
    TaskInt {
        variable: VariableId,
        value: i64,
    },
    TaskTime {
        variable: VariableId,
        value: i64,
    },
    TaskDuration {
        variable: VariableId,
        value: i64,
    },
    TaskBool {
        value: bool,
        variable: VariableId,
    },
    TaskPid {
        variable: VariableId,
        value: Pid,
    },
    OutputOnPath {
        reached: TargetKind,
        count: u16,
        signal: SignalId,
        target: u32,
    },
    OutputToProcess {
        reached: TargetKind,
        count: u16,
        signal: SignalId,
        process: ProcessId,
        target: u32,
    },
    OutputToNull {
        reached: TargetKind,
        count: u16,
        signal: SignalId,
        target: u32,
    },
    OutputToEnv {
        reached: TargetKind,
        count: u16,
        signal: SignalId,
        target: u32,
    },
    OutputToInstance {
        reached: TargetKind,
        count: u16,
        signal: SignalId,
        pid: u32,
        target: u32,
    },
    Set {
        count: u16,
        timer: SignalId,
        due: u64,
    },
    Reset {
        count: u16,
        timer: SignalId,
    },
    Create {
        process: ProcessId,
        pid: Option<u32>,
    },
    NextState {
        state: StateId,
    },
    Stop,
    Failed {
        why: Failure,
    },
    Rest {
        state: StateId,
    },
    Cut {
        state: Option<StateId>,
    },
}

/// A record of ten million transitions is to fit into memory.
const _: () = prove!(size_of::<Packed>() == 16);

impl Packed {
    /// How many values it has.
    #[inline(always)]
    pub fn count(self) -> usize
        ensures { result ≡ count_of self }
    {
        match self {
            Packed::Consumed { count, .. }
            | Packed::Prior { count, .. }
            | Packed::Discarded { count, .. }
            | Packed::OutputOnPath { count, .. }
            | Packed::OutputToProcess { count, .. }
            | Packed::OutputToNull { count, .. }
            | Packed::OutputToEnv { count, .. }
            | Packed::OutputToInstance { count, .. }
            | Packed::Set { count, .. }
            | Packed::Reset { count, .. } => count as usize,
            _ => 0,
        }
    }

    /// Whether it is an event.
    #[inline(always)]
    pub fn is_event(self) -> bool
        ensures { result ≡ is_event self }
    {
        match self {
            Packed::Time { .. } => false,
            _ => true,
        }
    }

    /// The time after it, if it was this one before.
    #[inline(always)]
    pub fn time_after(self, time: u64) -> u64
        ensures { result ≡ time_after time self }
    {
        match self {
            Packed::Time { at } => at,
            _ => time,
        }
    }

    /// The instance to which it is an output.
    #[inline(always)]
    pub fn receiver(self) -> Option<u32>
        ensures { result ≡ receiver_in self }
    {
        match self {
            Packed::OutputOnPath {
                reached,
                target,
                ..
            }
            | Packed::OutputToProcess {
                reached,
                target,
                ..
            }
            | Packed::OutputToNull {
                reached,
                target,
                ..
            }
            | Packed::OutputToEnv {
                reached,
                target,
                ..
            }
            | Packed::OutputToInstance {
                reached,
                target,
                ..
            } => reached.instance(target),
            _ => None,
        }
    }

    /// The event that it is at this time, if it is one.
    #[inline(always)]
    pub fn entry_at(self, at: u64) -> Option<Entry>
        ensures { result ≡ entry_at at self }
    {
        match self {
            Packed::Time { .. } => None,
            Packed::Start => Some(Entry::Start { at }),
            Packed::Consumed {
                origin,
                name,
                from,
                ..
            } => Some(Entry::Consumed {
                at,
                got: stimulus(name, origin, from),
            }),
            Packed::Prior {
                origin,
                name,
                from,
                ..
            } => Some(Entry::Prior {
                at,
                got: stimulus(name, origin, from),
            }),
            Packed::Discarded {
                origin,
                name,
                from,
                ..
            } => Some(Entry::Discarded {
                at,
                got: stimulus(name, origin, from),
            }),
            Packed::Provided { number } => Some(Entry::Provided { at, number }),
            Packed::FailedAt { why } => Some(Entry::FailedAt { at, why }),
            Packed::TaskInt { variable, value } => Some(task(variable, Value::Int(value))),
            Packed::TaskTime { variable, value } => Some(task(variable, Value::Time(value))),
            Packed::TaskDuration { variable, value } => {
                Some(task(variable, Value::Duration(value)))
            }
            Packed::TaskBool { value, variable } => Some(task(variable, Value::Bool(value))),
            Packed::TaskPid { variable, value } => Some(task(variable, Value::Pid(value))),
            Packed::OutputOnPath {
                reached,
                signal,
                target,
                ..
            } => Some(output(signal, Dest::Path, reached, target)),
            Packed::OutputToProcess {
                reached,
                signal,
                process,
                target,
                ..
            } => Some(output(signal, Dest::Process(process), reached, target)),
            Packed::OutputToNull {
                reached,
                signal,
                target,
                ..
            } => Some(output(signal, Dest::Pid(Pid::Null), reached, target)),
            Packed::OutputToEnv {
                reached,
                signal,
                target,
                ..
            } => Some(output(signal, Dest::Pid(Pid::Env), reached, target)),
            Packed::OutputToInstance {
                reached,
                signal,
                pid,
                target,
                ..
            } => Some(output(signal, Dest::Pid(Pid::Of(pid)), reached, target)),
            Packed::Set { timer, due, .. } => Some(Entry::Set { timer, due }),
            Packed::Reset { timer, .. } => Some(Entry::Reset { timer }),
            Packed::Create { process, pid } => Some(Entry::Create { process, pid }),
            Packed::NextState { state } => Some(Entry::NextState { state }),
            Packed::Stop => Some(Entry::Stop),
            Packed::Failed { why } => Some(Entry::Failed { why }),
            Packed::Rest { state } => Some(Entry::Rest { state }),
            Packed::Cut { state } => Some(Entry::Cut { state }),
        }
    }
}

/// The stimulus of these parts.
#[inline(always)]
fn stimulus(name: SignalId, origin: OriginKind, from: u32) -> Stimulus
    ensures { result ≡ record { name = name; origin = origin_of origin from } }
{
    Stimulus {
        name,
        origin: origin.origin(from),
    }
}

/// The entry of a task.
#[inline(always)]
fn task(variable: VariableId, value: Value) -> Entry
    ensures { result ≡ kept.Task variable value }
{
    Entry::Task { variable, value }
}

/// The entry of an output. Whom it reached is in two parts.
#[inline(always)]
fn output(signal: SignalId, to: Dest, reached: TargetKind, target: u32) -> Entry
    ensures { result ≡ kept.Output signal to (target_of reached target) }
{
    Entry::Output {
        signal,
        to,
        target: reached.target(target),
    }
}
