//! Runs that are written by hand.

ghost use Rattle.std.specs.Prelude.{◌≤◌, IfOk, length};
ghost use Rattle.run_record.specs.Event.{values_got};

use crate::replay::given::{Given, make_given};
use port_model::{Course, Got, Item, Pid, SenderInto, SignalId, Ticks, Value, Values};
use run_record::{Failure, Record, Report};
use sdl_system::{Dest, ProcessId, StateId, Target};
use std::alloc::{AllocError, Global};
use std::process::Abort;
use view_run::{Found, find_order};

/// What an instance does. It is in its first state whenever it waits.
#[derive(Clone, Copy)]
pub enum Did {
    Start,
    /// It takes a signal of an instance, or of the environment, or by a priority input.
    Take(SignalId, u32),
    TakeOfEnv(SignalId, Option<u32>),
    TakeFirst(SignalId, u32),
    /// It sends a signal, which reaches the instance of this number.
    Send(SignalId, Dest, u32),
    Create(ProcessId, u32),
    Wait,
    /// It fails in its state, or in a transition.
    FailWaiting(Failure),
    Fail(Failure),
    /// The clock moves by one.
    Tick,
    Rest,
    /// The run is cut while it waits.
    Cut,
}

/// What a run keeps of an instance.
#[derive(Clone, Copy)]
pub struct Kept<'a> {
    pub puts: &'a [u32],
    pub drawn: &'a [u32],
    pub versions: &'a [u32],
    /// The number that it has in the ports of these numbers.
    pub senders: &'a [(u32, u32)],
}

/// A run that is written by hand.
#[derive(Drop)]
pub struct Written {
    alloc: Global,
    /// The number of the next instance.
    next: u32,
    pub report: Report,
    course: Course,
}

impl Written {
    /// A run of no instance, until this time. The environment puts into these ports.
    pub fn new(alloc: Global, end: u64, senders: &[(u32, u32)]) -> Result<Self, AllocError> {
        let mut written = Written {
            alloc,
            next: 1,
            report: Report {
                records: Vec::new(alloc),
                end: Ticks::new(end),
                whole: true,
            },
            course: Course {
                puts: Vec::new(alloc),
                drawn: Vec::new(alloc),
                versions: Vec::new(alloc),
                senders: Vec::new(alloc),
            },
        };
        written.add_senders(senders)?;
        Ok(written)
    }

    /// The instance of the next number, of a process and made by one, did this.
    pub fn add(
        &mut self,
        process: ProcessId,
        parent: Pid,
        events: &[Did],
        kept: Kept<'_>,
    ) -> Result<(), AllocError> {
        let mut record = Record::new(self.alloc, process, self.next, parent);
        self.next = self.next.saturating_add(1);
        let mut now = 0;
        for did in events {
            if let Did::Tick = did {
                now = 1;
            }
            note(self.alloc, &mut record, Ticks::new(now), *did)?;
        }
        self.report.records.push(record)?;
        self.course
            .puts
            .push(Vec::from_slice(self.alloc, kept.puts)?)?;
        self.course
            .drawn
            .push(Vec::from_slice(self.alloc, kept.drawn)?)?;
        self.course
            .versions
            .push(Vec::from_slice(self.alloc, kept.versions)?)?;
        self.add_senders(kept.senders)
    }

    fn add_senders(&mut self, senders: &[(u32, u32)]) -> Result<(), AllocError> {
        let mut row = Vec::new(self.alloc);
        for sender in senders {
            row.push(SenderInto {
                port: sender.0,
                number: sender.1,
            })?;
        }
        self.course.senders.push(row)?;
        Ok(())
    }
}

/// Notes what an instance did at a time.
fn note(alloc: Global, record: &mut Record, at: Ticks, did: Did) -> Result<(), AllocError> {
    record.reserve(1, 1)?;
    match did {
        Did::Start => record.start(at),
        Did::Take(name, number) => record.consumed(at, &got(alloc, name, Pid::Of(number), None)?),
        Did::TakeOfEnv(name, value) => record.consumed(at, &got(alloc, name, Pid::Env, value)?),
        Did::TakeFirst(name, number) => record.prior(at, &got(alloc, name, Pid::Of(number), None)?),
        Did::Send(name, to, number) => record.output(name, to, &[], Target::Instance(number)),
        Did::Create(process, number) => record.create(process, Some(number)),
        Did::Wait => record.next_state(StateId(0)),
        Did::FailWaiting(why) => record.failed_at(at, why),
        Did::Fail(why) => record.failed(why),
        Did::Tick => {}
        Did::Rest => record.rest(StateId(0)),
        Did::Cut => record.cut(Some(StateId(0))),
    }
    Ok(())
}

/// A signal, which may have a number as its value.
fn got(alloc: Global, name: SignalId, sender: Pid, number: Option<u32>) -> Result<Got, AllocError>
    ensures { IfOk result (λ got. length (values_got got) ≤ 1) }
{
    let mut values = Values::none(alloc);
    if let Some(number) = number {
        values.push(Value::Pid(Pid::Of(number)))?;
    }
    Ok(Got::Signal(Item {
        name,
        values,
        sender,
    }))
}

/// Sees that the events of a run of a specification on a script are told of these instances, one after the other; or as
/// far as that, and the one with this number is stuck.
pub fn expect_order(
    rt: &impl Abort,
    alloc: Global,
    specification: &str,
    script: &str,
    written: &Written,
    order: &[u32],
    stuck: Option<u32>,
) {
    let given = make_given(rt, alloc, specification, script);
    let Given { system, script } = &given;
    let Written { report, course, .. } = written;
    match find_order(alloc, system, script, report, course).expect(rt, "memory") {
        Found::Told(tellers) => {
            assert!(rt; stuck.is_none(), "all is told");
            assert!(rt; tellers.as_slice() == order);
        }
        Found::Stuck { told, number } => {
            assert!(rt; stuck == Some(number), "stuck at #{number}");
            assert!(rt; told.as_slice() == order);
        }
    }
}
