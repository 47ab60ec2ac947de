//! A run with threads for workers. Its calls may wait for them.

ghost use Rattle.std.specs.Prelude.{◌≡◌, All, IfOk, IfSome, None, false};
ghost use Rattle.sdl_engine.specs.Log.{IsCourseOf};
ghost use Rattle.sdl_script.specs.Script.{SendsFromEnv};
ghost use Rattle.settle_meaning.specs.Settled.{IsSettledReport};

use crate::runner::{Ran, Runner};
use crate::serial::Serial;
use run_record::{Report, RunError};
use sdl_report::{WriteFault, write_report_by_workers};
use sdl_script::Script;
use sdl_system::System;
use sdl_workers::{Open, run, run_with_course};
use serial_run::Listener;
use std::alloc::Global;
use std::io::Write;
use std::marker::PhantomData;
use std::sync::Wait;
use std::thread::Threads;
use view_run::OrderLog;

/// The leave to start threads and to wait for them, of a type that has it. It is for the workers, too: unlike a `T`, it
/// holds nothing of which a proof would have to know that it may go to another thread.
#[derive(Drop)]
struct Leave<T> {
    of: PhantomData<T>,
}

impl<T: Threads> Threads for Leave<T> {}

impl<T: Wait> Wait for Leave<T> {}

/// The thread that calls, and the workers that are asked for. Without workers it goes as without threads.
#[derive(Drop)]
pub struct Threaded<T: Threads + Wait + Sync> {
    leave: Leave<T>,
}

impl<T: Threads + Wait + Sync> Threaded<T> {
    /// With the threads of this handle.
    pub fn new(_rt: &T) -> Self {
        Threaded {
            leave: Leave { of: PhantomData },
        }
    }
}

impl<T: Threads + Wait + Sync> Runner for Threaded<T> {
    ghost use Rattle.std.specs.Prelude.{true};

    ghost threaded = { true };

    fn run<L: Listener>(
        &self,
        alloc: Global,
        system: &System,
        script: &Script,
        workers: Option<u8>,
        limit: u64,
        keeps_order: bool,
        listener: L,
    ) -> Result<Ran, RunError> {
        match workers {
            None => Serial.run(alloc, system, script, None, limit, keeps_order, listener),
            Some(count) => run_by(
                &&self.leave,
                alloc,
                system,
                script,
                count,
                limit,
                keeps_order,
            ),
        }
    }

    fn write_report<W: Write>(
        &self,
        alloc: Global,
        workers: Option<u8>,
        report: &Report,
        system: &System,
        writer: &mut W,
    ) -> Result<(), WriteFault> {
        match workers {
            None => Serial.write_report(alloc, None, report, system, writer),
            Some(count) => {
                let count = usize::from(count);
                write_report_by_workers(&self.leave, alloc, count, report, system, writer)
            }
        }
    }
}

/// A run by so many workers, with its course if its order is asked for. That the script is one for the system is the
/// caller's condition.
fn run_by<R: Threads + Wait + Copy + Send + Sync>(
    rt: &R,
    alloc: Global,
    system: &System,
    script: &Script,
    workers: u8,
    limit: u64,
    keeps_order: bool,
) -> Result<Ran, RunError>
    requires { All (SendsFromEnv system.now) script.now.lines.items }
    ensures settled { IfOk result (λ ran. IsSettledReport system.now script.now.lines.items limit ran.report) }
    ensures off { keeps_order ≡ false → IfOk result (λ ran. ran.log ≡ None) }
    ensures log { IfOk result (λ ran. IfSome ran.log (IsCourseOf ran.report)) }
{
    let count = usize::from(workers);
    if !keeps_order {
        let report = run(rt, alloc, system, script, count, limit, &Open)?;
        return Ok(Ran { report, log: None });
    }
    let settled = run_with_course(rt, alloc, system, script, count, limit, &Open)?;
    Ok(Ran {
        report: settled.report,
        log: settled.course.map(OrderLog::Course),
    })
}
