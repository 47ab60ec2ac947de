//! How an instance is run: what the script says and what the instance sends to itself comes into its port, timers
//! expire at their times, and it steps until it rests.

ghost use Rattle.std.specs.Prelude.{◌≤◌};

use crate::runtime::Runtime;
use port_model::{Fuse, Inbox, Item, Ticks};
use run_record::Record;
use sdl_interp::{Instance, Stepped};
use sdl_script::{Script, ScriptLine};
use std::alloc::Global;
use std::process::Abort;

/// So many steps are made at one time, and so many timers expire, at most.
const MOST: u32 = 50;

/// An instance, with what brings signals and expiries into its port.
pub trait Subject {
    /// One step.
    fn advance(&mut self, alloc: Global, runtime: &mut Runtime<'_>) -> Stepped;

    /// Brings a signal into the port; false: for lack of memory it is not there.
    fn hear(&mut self, item: Item) -> bool;

    /// Brings the expiry of a timer into the port; false: for lack of memory it is not there.
    fn hear_expiry(&mut self, fuse: Fuse, at: Ticks) -> bool
        requires { fuse.due ≤ at };
}

/// Runs the instance by the script.
pub fn play<S: Subject>(
    rt: &impl Abort,
    alloc: Global,
    subject: &mut S,
    runtime: &mut Runtime<'_>,
    script: Script,
) {
    for line in script.lines {
        let ScriptLine { at, signal } = line;
        if runtime.clock < at {
            pass(rt, alloc, subject, runtime, at);
        }
        if let Some(signal) = signal {
            assert!(rt; subject.hear(signal.item));
        }
    }
    settle(rt, alloc, subject, runtime);
}

/// Lets time pass up to this one.
fn pass<S: Subject>(
    rt: &impl Abort,
    alloc: Global,
    subject: &mut S,
    runtime: &mut Runtime<'_>,
    to: Ticks,
) {
    for _ in 0..MOST {
        settle(rt, alloc, subject, runtime);
        match runtime.next_due() {
            Some(due) if due <= to => runtime.clock = due,
            _ => break,
        }
    }
    runtime.clock = to;
}

/// Steps until the instance rests or ends.
fn settle<S: Subject>(rt: &impl Abort, alloc: Global, subject: &mut S, runtime: &mut Runtime<'_>) {
    for _ in 0..MOST {
        expire(rt, subject, runtime);
        if subject.advance(alloc, runtime) != Stepped::Moved {
            break;
        }
        hear_own(rt, subject, runtime);
    }
}

/// Brings all that the instance has sent to itself into its port.
fn hear_own<S: Subject>(rt: &impl Abort, subject: &mut S, runtime: &mut Runtime<'_>) {
    for item in runtime.own.drain(..) {
        assert!(rt; subject.hear(item));
    }
}

/// The timers that are due by now expire.
fn expire<S: Subject>(rt: &impl Abort, subject: &mut S, runtime: &mut Runtime<'_>) {
    for _ in 0..MOST {
        let Some(fuse) = runtime.take_due() else {
            break;
        };
        let at = Ticks::later_of(runtime.clock, fuse.due());
        assert!(rt; subject.hear_expiry(fuse, at));
    }
}

/// The record of an instance: whole where it rests.
pub fn finish<P: Inbox + Drop>(
    alloc: Global,
    mut instance: Instance<'_, P>,
    runtime: &mut Runtime<'_>,
) -> Record {
    match instance.step(alloc, runtime) {
        Stepped::Idle => instance.close(true).trace,
        _ => instance.close(false).trace,
    }
}
