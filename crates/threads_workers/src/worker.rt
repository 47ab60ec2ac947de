//! The loop of a worker.

use crate::gate::Gate;
use crate::job::{count_job, is_to_look, is_to_look_at_others, steps_of, tell_moves};
use crate::relief::relieve_others;
use crate::waking::Unparkers;
use crossbeam_utils::sync::Parker;
use sdl_timers::Reader;
use std::alloc::{AllocError, Global};
use std::sync::Wait;
use threads_instance::{LocalQueue, Turn};
use threads_ports::{NumberSeat, Run};
use threads_shared::{Lookout, Own, Shared};

/// Works until the run is over: takes numbers, and makes steps of those instances. `me` is its place among the workers,
/// and it parks on `parker`. Where it finds no memory for the run's own tables, it ends the run.
pub fn work<J: Run, R: Wait + Copy, G: Gate>(
    shared: &Shared<'_, '_, '_, J, R>,
    unparkers: Unparkers<'_>,
    gate: &G,
    me: usize,
    parker: Parker<Global>,
    reader: Reader,
    seat: NumberSeat<J>,
) {
    if rounds(shared, unparkers, gate, me, &parker, reader, seat).is_err() {
        unparkers.wake(shared.tables.fail(shared.rt));
        unparkers.driver.unpark();
    }
}

/// Makes rounds until the run is over.
fn rounds<J: Run, R: Wait + Copy, G: Gate>(
    shared: &Shared<'_, '_, '_, J, R>,
    unparkers: Unparkers<'_>,
    gate: &G,
    me: usize,
    parker: &Parker<Global>,
    reader: Reader,
    seat: NumberSeat<J>,
) -> Result<(), AllocError> {
    // Each worker has a local queue.
    let Some(local) = shared.tables.local(me) else {
        return Err(AllocError);
    };
    let processes = shared.system.processes().len();
    let part = shared.tables.signs.part(unparkers.workers.len());
    let keeps_course = shared.keeps_course;
    let mut own = Own::new(shared.alloc, reader, seat, processes, part, keeps_course)?;
    let worked = rounds_of(shared, unparkers, gate, me, parker, &mut own, local);
    own.end_with(shared);
    worked
}

/// Makes rounds until the run is over, with what this worker has for itself.
fn rounds_of<J: Run, R: Wait + Copy, G: Gate>(
    shared: &Shared<'_, '_, '_, J, R>,
    unparkers: Unparkers<'_>,
    gate: &G,
    me: usize,
    parker: &Parker<Global>,
    own: &mut Own<J>,
    local: &LocalQueue,
) -> Result<(), AllocError> {
    own.lookout = Lookout::new(shared.alloc, unparkers.workers.len())?;
    local.reserve(shared.rt)?;
    for _ in shared.rt.forever() {
        if !round(shared, unparkers, gate, me, parker, own, local)? {
            break;
        }
    }
    // Once all workers have ended, the sum has all transitions.
    tell_moves(shared, own);
    Ok(())
}

/// One round: a job, or what the injector says. False: the run is over.
fn round<J: Run, R: Wait + Copy, G: Gate>(
    shared: &Shared<'_, '_, '_, J, R>,
    unparkers: Unparkers<'_>,
    gate: &G,
    me: usize,
    parker: &Parker<Global>,
    own: &mut Own<J>,
    local: &LocalQueue,
) -> Result<bool, AllocError> {
    if shared.tables.signs.is_closed() {
        end(shared, unparkers);
        return Ok(false);
    }
    help(shared, unparkers, own, local)?;
    if let Some(ticket) = local.next(shared.rt, &mut own.hand)? {
        count_job(own);
        steps_of(shared, own, local, gate, ticket)?;
        return Ok(true);
    }
    tell_moves(shared, own);
    shared.tables.signs.seek();
    if shared.tables.signs.is_closed() {
        end(shared, unparkers);
        return Ok(false);
    }
    match next_turn(shared, me, own, local)? {
        Turn::Work { wake } => unparkers.wake(wake),
        Turn::End { wake } => {
            unparkers.wake(wake);
            return Ok(false);
        }
        Turn::Sleep { rest } => {
            if rest {
                unparkers.driver.unpark();
            }
            // Before: this worker is noted as asleep, under the lock under which numbers are queued. After: a token
            // came. Whoever takes it out of the sleepers unparks it after that, and the parker keeps the token; so a
            // number that was queued since is not missed.
            parker.park(shared.rt);
        }
    }
    Ok(true)
}

/// Does what the other workers and those in the injector need: gives numbers to a worker that has none, looks into the
/// injector, and looks whether the others come to their local queues.
fn help<J: Run, R: Wait + Copy>(
    shared: &Shared<'_, '_, '_, J, R>,
    unparkers: Unparkers<'_>,
    own: &mut Own<J>,
    local: &LocalQueue,
) -> Result<(), AllocError> {
    let numbers = local.len().saturating_add(own.hand.len());
    if numbers >= 2 && shared.tables.signs.has_idle() {
        unparkers.wake(share(shared, own, local)?);
    }
    if is_to_look(shared, own, numbers) {
        exchange(shared, own, local)?;
    }
    if is_to_look_at_others(own) {
        relieve_others(shared, unparkers, own)?;
    }
    Ok(())
}

/// Asks the injector for the next turn of this worker, which has no number.
fn next_turn<J: Run, R: Wait + Copy>(
    shared: &Shared<'_, '_, '_, J, R>,
    me: usize,
    own: &mut Own<J>,
    local: &LocalQueue,
) -> Result<Turn, AllocError> {
    own.jobs = 0;
    // Before: this worker has no number. After: it has some, or it is noted as asleep while the queue is empty. Who
    // queues a number later has this lock then, and sees the worker asleep.
    let mut injector = shared.tables.injector.lock(shared.rt);
    let turn = local.turn(shared.rt, &mut injector, me)?;
    shared.tables.signs.note(&injector);
    Ok(turn)
}

/// Looks into the injector: exchanges this worker's first numbers for those that have waited longest there.
fn exchange<J: Run, R: Wait + Copy>(
    shared: &Shared<'_, '_, '_, J, R>,
    own: &mut Own<J>,
    local: &LocalQueue,
) -> Result<(), AllocError> {
    own.jobs = 0;
    local.put_all(shared.rt, &mut own.hand)?;
    // This worker isn't noted as asleep: `jobs` is 0 after it has asked the injector, and it has made jobs since, with
    // numbers that the injector gave it awake. So a worker whose parker let it go by itself asks the injector before it
    // looks here. If it looked here first, it would have numbers while all workers are noted as asleep and the queue is
    // empty: the run would be at rest, and the driver would move the clock during a job.
    //
    // Before: the numbers of this worker's queue are in it, and those in the injector's are there. After: the same, of
    // others: each number is in one of the two still. Nobody falls asleep by this, and nobody is woken. No wake-up is
    // lost: if somebody sleeps while numbers wait, one that was unparked is on the way to the injector, and what it
    // finds there is no matter. It sleeps again only if the injector is empty then.
    let mut injector = shared.tables.injector.lock(shared.rt);
    local.exchange(shared.rt, &mut injector)?;
    shared.tables.signs.note(&injector);
    Ok(())
}

/// Gives half of this worker's numbers to the injector, where another worker has none. The answer is a worker that
/// slept, which is to be unparked. Who looks for a number finds them by itself.
fn share<J: Run, R: Wait + Copy>(
    shared: &Shared<'_, '_, '_, J, R>,
    own: &mut Own<J>,
    local: &LocalQueue,
) -> Result<Option<usize>, AllocError> {
    local.put_all(shared.rt, &mut own.hand)?;
    // Before: the numbers are this worker's. After: half of them are in the injector's queue, and one that slept is no
    // longer noted as asleep; it wakes the next one if it leaves some. Where nobody sleeps, the next that has none
    // finds them.
    let mut injector = shared.tables.injector.lock(shared.rt);
    let wake = local.share(shared.rt, &mut injector)?;
    shared.tables.signs.note(&injector);
    Ok(wake)
}

/// Sees to it that all others end, too. What this worker has queued stays there: the instances are in their slots, and
/// who has the run then gives the tickets back.
fn end<J: Run, R: Wait + Copy>(shared: &Shared<'_, '_, '_, J, R>, unparkers: Unparkers<'_>) {
    unparkers.wake(shared.tables.close(shared.rt));
    unparkers.driver.unpark();
}
