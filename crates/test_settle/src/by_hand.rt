//! Runs that a test makes by hand, act by act, so that what comes of them may be wrong.

use crate::withholding::Withholding;
use port_model::{Fuse, Ticks};
use run_record::RunError;
use sdl_system::ProcessId;
use settle_closing::{Closing, close};
use settle_run::{Ending, Settled, report_of};
use std::alloc::AllocError;
use std::sync::Wait;
use std::thread::Threads;
use threads_ports::Run;
use threads_shared::{Environment, Own, Shared, StepRuntime};

/// The greatest number of an instance in a test.
const MOST_INSTANCES: u32 = 20;

/// How many threads look at the records at most.
const THREADS: usize = 3;

/// One thing that is done to a run. A step is made at any time that the test says, whatever a clock would show.
#[derive(Clone, Copy)]
pub enum Act {
    /// The instance of this number makes a step at this time.
    Step(u32, u64),
    /// So it does, and whom it creates gets no values.
    Withhold(u32, u64),
    /// The next line of the script is heard.
    Hear,
    /// The fuse that was set last expires at this time.
    Expire(u64),
    /// By the roster this instance of a process lives no more.
    End(u32, u32),
}

/// What a test does to a run, how and when the run ends then, and what is done once all records are closed.
#[derive(Clone, Copy)]
pub struct Made {
    pub acts: &'static [Act],
    pub whole: bool,
    pub end: u64,
    pub late: &'static [Act],
}

/// The end of a run that is made so, with this limit.
pub fn by_hand<J: Run, R: Threads + Wait + Copy + Sync>(
    shared: &Shared<'_, '_, '_, J, R>,
    own: &mut Own<J>,
    environment: Environment<'_, J>,
    limit: u64,
    made: Made,
) -> Result<Settled, RunError> {
    let mut environment = environment;
    let mut fuses = Vec::new(shared.alloc);
    do_all(shared, own, &mut environment, &mut fuses, made.acts)?;
    let closings = close_all(shared, own, made.whole, Ticks::new(made.end))?;
    do_all(shared, own, &mut environment, &mut fuses, made.late)?;
    let ending = Ending {
        whole: made.whole,
        limit,
    };
    report_of(shared, closings, environment, ending, THREADS)
}

/// Does these acts, one after the other. The fuses that are set wait in a list.
fn do_all<J: Run, R: Wait + Copy>(
    shared: &Shared<'_, '_, '_, J, R>,
    own: &mut Own<J>,
    environment: &mut Environment<'_, J>,
    fuses: &mut Vec<Fuse>,
    acts: &[Act],
) -> Result<(), AllocError> {
    for act in acts {
        match *act {
            Act::Step(number, time) => step(shared, own, number, time, false),
            Act::Withhold(number, time) => step(shared, own, number, time, true),
            Act::Hear => hear(shared, environment)?,
            Act::Expire(time) => expire(shared, environment, fuses, time)?,
            Act::End(process, number) => {
                shared.tables.end(shared.rt, ProcessId(process), number);
            }
        }
        keep_fuses(own, fuses)?;
    }
    Ok(())
}

/// The fuses that a step has set wait with the others.
fn keep_fuses<J: Run>(own: &mut Own<J>, fuses: &mut Vec<Fuse>) -> Result<(), AllocError> {
    for _ in 0..own.fuses.len() {
        if let Some(fuse) = own.fuses.pop() {
            fuses.push(fuse)?;
        }
    }
    Ok(())
}

/// A step of the instance of this number, if it is there. `withholds`: whom it creates gets no values.
fn step<J: Run, R: Wait + Copy>(
    shared: &Shared<'_, '_, '_, J, R>,
    own: &mut Own<J>,
    number: u32,
    time: u64,
    withholds: bool,
) {
    let Some(slot) = shared.slots.of(number) else {
        return;
    };
    let mut guard = slot.lock_joined(shared.rt);
    let Some(seated) = guard.as_mut() else {
        return;
    };
    let time = Ticks::new(time);
    let mut runtime = StepRuntime { shared, own };
    if withholds {
        let mut withholding = Withholding { inner: runtime };
        let _ = seated.step(shared.alloc, shared.rt, &mut withholding, time);
    } else {
        let _ = seated.step(shared.alloc, shared.rt, &mut runtime, time);
    }
}

/// The next line is heard, if one is left.
fn hear<J: Run, R: Wait + Copy>(
    shared: &Shared<'_, '_, '_, J, R>,
    environment: &mut Environment<'_, J>,
) -> Result<(), AllocError> {
    if environment.next_at().is_some() {
        let _ = environment.hear(shared)?;
    }
    Ok(())
}

/// The fuse that was set last expires at this time, if it is due by then.
fn expire<J: Run, R: Wait + Copy>(
    shared: &Shared<'_, '_, '_, J, R>,
    environment: &mut Environment<'_, J>,
    fuses: &mut Vec<Fuse>,
    time: u64,
) -> Result<(), AllocError> {
    let time = Ticks::new(time);
    let Some(fuse) = fuses.pop() else {
        return Ok(());
    };
    if fuse.due() <= time {
        let _ = environment.expire(shared, fuse, time)?;
    }
    Ok(())
}

/// Closes the records of all instances.
fn close_all<'p, J: Run, R: Wait + Copy>(
    shared: &Shared<'_, '_, 'p, J, R>,
    own: &mut Own<J>,
    whole: bool,
    at: Ticks,
) -> Result<Vec<Closing<'p, J, R>>, RunError> {
    let mut closings = Vec::new(shared.alloc);
    for number in 1..=MOST_INSTANCES {
        let Some(slot) = shared.slots.of(number) else {
            continue;
        };
        if let Some(seated) = slot.leave(shared.rt) {
            closings.push(close(seated, shared, own, whole, at)?)?;
        }
    }
    Ok(closings)
}
