//! What drives a run: it has the environment hear the script, and moves the clock.

ghost use Rattle.std.specs.Prelude.{◌≡◌, ◌≤◌, IfSome, OnOk};
ghost use Rattle.threads_shared.specs.Environment.{IsNextAfter};

use crate::waking::Unparkers;
use crossbeam_utils::sync::Parker;
use port_model::{Fuse, Ticks};
use sdl_timers::Ticker;
use std::alloc::{AllocError, Global};
use std::sync::Wait;
use threads_ports::Run;
use threads_shared::{Environment, Shared};

/// The driver of the run `J`, on the calling thread: its environment, the ticker of its clock, and the clock's time.
#[derive(Drop)]
pub struct Driver<'l, J: Run> {
    pub environment: Environment<'l, J>,
    pub ticker: Ticker,
    pub time: Ticks,
}

/// The state of a run, as the driver finds it.
enum Seen {
    /// The run is over.
    Over,
    /// Somebody has something to do.
    Busy,
    /// Nobody has anything to do.
    Rest,
}

impl<'l, J: Run> Driver<'l, J> {
    /// The driver of a run at time 0.
    pub fn new(environment: Environment<'l, J>, ticker: Ticker) -> Self
        ensures environment { result.environment ≡ environment.entry }
        ensures time { result.time ≡ 0 }
    {
        Driver {
            environment,
            ticker,
            time: Ticks::new(0),
        }
    }

    /// Drives the run on the calling thread, until it is over: whenever nobody has anything to do, the clock moves to
    /// the next time at which a timer is due or the script has a line, and what is due then happens. At the end of the
    /// script, with no timer due by then, it ends the run. Refused for lack of memory.
    pub fn drive<R: Wait + Copy>(
        &mut self,
        shared: &Shared<'_, '_, '_, J, R>,
        unparkers: Unparkers<'_>,
        parker: &Parker<Global>,
    ) -> Result<(), AllocError>
        ensures { self.new.environment.lines ≡ self.old.environment.lines }
    {
        for _ in shared.rt.forever() {
            match look(shared) {
                Seen::Over => break,
                // Before: a worker steps or is to. After: a token came. The last worker that falls asleep unparks the
                // driver after that, and so does who ends the run; the parker keeps the token.
                Seen::Busy => parker.park(shared.rt),
                Seen::Rest => {
                    if !self.tick(shared, unparkers)? {
                        unparkers.wake(shared.tables.close(shared.rt));
                        break;
                    }
                }
            }
        }
        Ok(())
    }

    /// Moves the clock to the next time at which something is due, and does that. False: nothing is due any more.
    fn tick<R: Wait + Copy>(
        &mut self,
        shared: &Shared<'_, '_, '_, J, R>,
        unparkers: Unparkers<'_>,
    ) -> Result<bool, AllocError>
        ensures { self.new.environment.lines ≡ self.old.environment.lines }
    {
        let last = match self.environment.lines().last() {
            Some(line) => line.at,
            None => Ticks::new(0),
        };
        match self.next_time(shared) {
            Some(next) if next <= last => self.move_to(shared, unparkers, next),
            _ => Ok(false),
        }
    }

    /// Moves the clock to this time, and does what is due then: all of it is put before somebody is woken, so that who
    /// is woken finds all of it. All who are woken are queued at once: so none of them waits while those before it step
    /// on and on.
    fn move_to<R: Wait + Copy>(
        &mut self,
        shared: &Shared<'_, '_, '_, J, R>,
        unparkers: Unparkers<'_>,
        next: Ticks,
    ) -> Result<bool, AllocError>
        ensures { self.new.environment.lines ≡ self.old.environment.lines }
    {
        self.time = self.time.max(next);
        self.ticker.advance(self.time);
        let mut woken = Vec::new(shared.alloc);
        self.expire_due(shared, &mut woken)?;
        self.hear_due(shared, &mut woken)?;
        wake_all(shared, unparkers, woken.as_slice())?;
        Ok(true)
    }

    /// The next time at which something is due: a timer, or a line that is not heard yet.
    fn next_time<R: Wait + Copy>(&self, shared: &Shared<'_, '_, '_, J, R>) -> Option<Ticks> {
        // Before: nobody steps, and who stepped has armed its fuses under this lock, so each fuse is in the wheel.
        // After: the least due of all fuses is known. It stays so, since only this thread wakes somebody now: no fuse
        // is armed that is due before, and no wake-up by a timer is lost.
        let due = shared.tables.wheel.lock(shared.rt).next_due();
        match (due, self.environment.next_at()) {
            (Some(due), Some(at)) => Some(due.min(at)),
            (Some(due), None) => Some(due),
            (None, at) => at,
        }
    }

    /// Puts the expiry of each timer whose time has come, and notes whom to wake.
    fn expire_due<R: Wait + Copy>(
        &mut self,
        shared: &Shared<'_, '_, '_, J, R>,
        woken: &mut Vec<u32>,
    ) -> Result<(), AllocError>
        ensures lines { self.new.environment.lines ≡ self.old.environment.lines }
        ensures time { self.new.time ≡ self.old.time }
    {
        for _ in shared.rt.forever() {
            let Some(fuse) = fire(shared, self.time) else {
                break;
            };
            woken.push(self.environment.expire(shared, fuse, self.time)?)?;
        }
        Ok(())
    }

    /// Hears the lines whose time has come, and notes whom to wake.
    fn hear_due<R: Wait + Copy>(
        &mut self,
        shared: &Shared<'_, '_, '_, J, R>,
        woken: &mut Vec<u32>,
    ) -> Result<(), AllocError>
        ensures lines { self.new.environment.lines ≡ self.old.environment.lines }
        ensures time { self.new.time ≡ self.old.time }
        ensures heard { OnOk result (IsNextAfter self.new.time self.new.environment) }
    {
        for _turn in 0..self.environment.lines().len() {
            let Some(at) = self.environment.next_at() else {
                return Ok(());
            };
            if at > self.time {
                return Ok(());
            }
            if let Some(number) = self.environment.hear(shared)? {
                woken.push(number)?;
            }
        }
        Ok(())
    }
}

/// Looks whether the run is over, or nobody has anything to do.
fn look<J: Run, R: Wait + Copy>(shared: &Shared<'_, '_, '_, J, R>) -> Seen {
    // Before: what workers do isn't known. After, at rest: all of them sleep and no number is queued, and only this
    // thread queues one then, so it stays so until it does.
    let injector = shared.tables.injector.lock(shared.rt);
    if injector.is_closed() || shared.tables.signs.is_closed() {
        return Seen::Over;
    }
    if injector.is_at_rest() {
        Seen::Rest
    } else {
        Seen::Busy
    }
}

/// Takes out of the wheel the first fuse whose time has come.
fn fire<J: Run, R: Wait + Copy>(shared: &Shared<'_, '_, '_, J, R>, to: Ticks) -> Option<Fuse>
    ensures { IfSome result (λ fuse. fuse.due ≤ to) }
{
    // Before: nobody steps, so each fuse is in the wheel. After: the fuse is the caller's alone.
    let fuse = shared.tables.wheel.lock(shared.rt).fire(to)?;
    // No clause says what the wheel under the lock held.
    if fuse.due() <= to { Some(fuse) } else { None }
}

/// Wakes the instances of these numbers. Refused for lack of memory: some may not be woken, so the run is to end
/// without a report.
fn wake_all<J: Run, R: Wait + Copy>(
    shared: &Shared<'_, '_, '_, J, R>,
    unparkers: Unparkers<'_>,
    woken: &[u32],
) -> Result<(), AllocError> {
    for _ in 0..queue_all(shared, woken)? {
        let worker = shared.tables.sleeper(shared.rt);
        if worker.is_none() {
            break;
        }
        unparkers.wake(worker);
    }
    Ok(())
}

/// Wakes the instances of these numbers, for which something came, and queues the ticket of each that rested in the
/// injector, all at once: who finds one of them there finds all that nobody has taken since. The answer is how many
/// were queued; the caller wakes workers then. Refused for lack of memory: the slot of the one that found no room has
/// its ticket back.
fn queue_all<J: Run, R: Wait + Copy>(
    shared: &Shared<'_, '_, '_, J, R>,
    woken: &[u32],
) -> Result<usize, AllocError> {
    // Before: those that rest have no ticket. After: the tickets of all of them are in the injector's queue. Workers
    // that look into the injector find them, under this lock. Those that are noted as asleep stay so, until the caller
    // takes one out and unparks it: it does so next, so the tickets aren't missed.
    let mut injector = shared.tables.injector.lock(shared.rt);
    let mut queued: usize = 0;
    for number in woken {
        // A number may be there twice: its ticket is queued at its first wake, and the second one finds it ready.
        let Some(slot) = shared.slots.of(*number) else {
            continue;
        };
        let Some(ticket) = slot.wake() else {
            continue;
        };
        if let Err(refused) = injector.add(ticket) {
            shared.slots.take_back(refused);
            return Err(AllocError);
        }
        queued = queued.saturating_add(1);
    }
    shared.tables.signs.note(&injector);
    Ok(queued)
}
