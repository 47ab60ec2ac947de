//! The tables of a run.

ghost use Rattle.threads_ports.specs.Instances.{without_one};
ghost use Rattle.threads_ports.specs.Roster.{lives_in, turned_in};
ghost use Rattle.std.specs.Prelude.{◌≡◌, IfOk, if◌then◌else◌, is_some, nat_lt, vec_len};
ghost use Rattle.threads_shared.specs.Signs.{limit_of, workers_of};

use crate::signs::Signs;
use crossbeam_utils::CachePadded;
use sdl_system::{ProcessId, System};
use sdl_timers::Wheel;
use std::alloc::{AllocError, Global};
use std::sync::{Mutex, Wait};
use threads_instance::{Injector, LocalQueue, Refused, Slots, Ticket};
use threads_ports::Roster;

/// The tables of a run that all threads change: who lives, which fuses wait, who is to step next, and the words. Each
/// worker has a local queue, by its place among the workers. They can't be let go, since the tickets in the queues
/// can't: their end is `end_with`.
pub struct Tables {
    pub roster: Mutex<Roster>,
    pub wheel: Mutex<Wheel>,
    pub injector: Mutex<Injector>,
    pub locals: Vec<CachePadded<LocalQueue>>,
    pub signs: Signs,
}

impl Tables {
    /// The tables of a run of this system that begins, with so many workers and this limit of transitions. Refused for
    /// lack of memory.
    pub fn new(
        alloc: Global,
        system: &System,
        workers: usize,
        limit: u64,
    ) -> Result<Self, AllocError>
        ensures limit { IfOk result (λ tables. limit_of tables.signs ≡ limit) }
        ensures workers { IfOk result (λ tables. workers_of tables.signs ≡ workers) }
        ensures locals { IfOk result (λ tables. vec_len tables.locals ≡ workers) }
    {
        let roster = Roster::new(alloc, system)?;
        let injector = Injector::new(alloc, workers)?;
        match locals_of(alloc, workers) {
            Ok(locals) => Ok(Tables {
                roster: Mutex::new(roster),
                wheel: Mutex::new(Wheel::new(alloc)),
                injector: Mutex::new(injector),
                locals,
                signs: Signs::new(limit, workers),
            }),
            Err(refused) => {
                injector.into_queue().destroy_empty();
                Err(refused)
            }
        }
    }

    /// Lets the tables go, once the threads are joined: each ticket goes back to its slot.
    pub fn end_with<T: Drop>(self, slots: &mut Slots<T>) {
        let Tables {
            roster: _,
            wheel: _,
            injector,
            locals,
            signs: _,
        } = self;
        slots.take_back_all(injector.into_inner().into_queue());
        let mut locals = locals;
        while let Some(local) = locals.pop() {
            slots.take_back_all(local.into_inner().into_queue());
        }
        locals.destroy_empty();
    }

    /// An instance of the process lives no more. Answers the version of the roster since.
    pub fn end<R: Wait>(&self, rt: &R, process: ProcessId, number: u32) -> u64 {
        // Before: the instance lives, by the roster. After: it doesn't, and the next version is noted: both in one
        // section, so each version of the roster is that of one change. Nobody waits for it, so nobody is woken.
        let mut roster = self.roster.lock(rt);
        let version = end_in(&mut roster, process, number);
        self.signs.note_version(&roster);
        version
    }

    /// Queues a ticket in the injector. The answer is a worker that sleeps, which is to be unparked. Refused for lack
    /// of memory: nothing has changed.
    pub fn queue<R: Wait>(&self, rt: &R, ticket: Ticket) -> Result<Option<usize>, Refused> {
        // Before: the ticket is the caller's, and is in no queue. After: it is in the injector's. Where a worker slept
        // it is no longer noted as asleep, and the caller unparks it; where none did, each worker looks into the
        // injector before it sleeps, under this lock.
        let mut injector = self.injector.lock(rt);
        injector.add(ticket)?;
        let wake = injector.sleeper();
        self.signs.note(&injector);
        Ok(wake)
    }

    /// The local queue of this worker. None: there is no such worker.
    pub fn local(&self, worker: usize) -> Option<&LocalQueue>
        ensures { is_some result ≡ nat_lt worker (vec_len self.now.locals) }
    {
        let local = self.locals.get(worker)?;
        Some(local)
    }

    /// Moves the numbers of a local queue into the injector, if its worker hasn't come to it since it had come so
    /// often. The answer is a worker that sleeps, which is to be unparked. Refused for lack of memory: they stay where
    /// they are.
    pub fn relieve<R: Wait>(
        &self,
        rt: &R,
        local: &LocalQueue,
        visits: u64,
    ) -> Result<Option<usize>, AllocError> {
        // Before: the numbers are in the local queue of a worker that isn't run, or is at a long step. After: they are
        // in the injector's queue, where each worker finds them, and one that slept is no longer noted as asleep; it
        // wakes the next one if it leaves some. Both are done under this lock. The caller and that worker are awake, so
        // the run isn't at rest before or after.
        let mut injector = self.injector.lock(rt);
        if !local.relieve(&mut injector, visits)? {
            return Ok(None);
        }
        let wake = injector.sleeper();
        self.signs.note(&injector);
        Ok(wake)
    }

    /// A worker that sleeps, which is to be unparked, where numbers are queued. None: nobody sleeps, or no number is
    /// queued.
    pub fn sleeper<R: Wait>(&self, rt: &R) -> Option<usize> {
        // Before: numbers may be queued. After: where there are some, one that slept is no longer noted as asleep, and
        // the caller unparks it; it looks into the injector under this lock before it sleeps again. Where there are
        // none, workers that were awake have taken them.
        let mut injector = self.injector.lock(rt);
        if injector.queued() == 0 {
            return None;
        }
        let wake = injector.sleeper();
        self.signs.note(&injector);
        wake
    }

    /// Ends the run: each worker ends at its next look. The answer is a worker that sleeps, which is to be unparked; it
    /// gets the next one from the injector, and so on.
    pub fn close<R: Wait>(&self, rt: &R) -> Option<usize> {
        // Before: workers step or sleep. After: who looks at the word or asks the injector ends. A worker that asked
        // before this, and sleeps, is in the list of sleepers, which is handed out one by one.
        self.signs.close();
        let mut injector = self.injector.lock(rt);
        injector.close();
        injector.sleeper()
    }

    /// Notes that there is no memory for the run's own tables, and ends it.
    pub fn fail<R: Wait>(&self, rt: &R) -> Option<usize> {
        self.signs.fail();
        self.close(rt)
    }
}

/// The local queues of so many workers, all of them empty. Refused for lack of memory.
fn locals_of(alloc: Global, workers: usize) -> Result<Vec<CachePadded<LocalQueue>>, AllocError>
    ensures { IfOk result (λ locals. vec_len locals ≡ workers) }
{
    let mut locals = Vec::with_capacity(alloc, workers)?;
    for _worker in 0..workers {
        locals.push_reserved(CachePadded::new(LocalQueue::new(alloc)));
    }
    Ok(locals)
}

/// An instance of the process lives no more, by this roster. Answers its version since.
fn end_in(roster: &mut Roster, process: ProcessId, number: u32) -> u64
    ensures after { roster.new ≡ (if lives_in roster.old.processes process number
        then turned_in (without_one number) roster.old process else roster.old) }
    ensures version { result ≡ roster.new.version }
{
    roster.end(process, number);
    roster.version()
}
