//! A job of a worker: some steps of one instance.

ghost use Rattle.std.specs.Prelude.{◌≡◌, IfOk, IfSome, IsTrue, OnOk, false};
ghost use Rattle.threads_shared.specs.Noting.{HasNoted};
ghost use Rattle.threads_workers.specs.Left.{HasStepped, IsLeft};

use crate::gate::Gate;
use run_record::{Receivers, Record};
use sdl_interp::{Ahead, Stepped};
use std::alloc::AllocError;
use std::sync::Wait;
use threads_instance::{LocalQueue, MOST_TAKEN, Ticket};
use threads_ports::Run;
use threads_shared::{Addressees, Own, Seated, Shared, StepRuntime, note_stepped};

/// How many steps a turn has at most, so that all that have something to do get theirs: the others of a worker's local
/// queue after it, and those in the injector when the worker looks there, after so many jobs. The fewer, the sooner
/// others find what waits for a worker that isn't run. Its steps share the two locks of a job, that of the slot and
/// that of the queue.
const STEPS_PER_TURN: u32 = 16;

/// After so many steps of a turn a worker looks whether another one has no number.
const STEPS_PER_LOOK: u32 = 8;

/// After how many jobs a worker looks into the injector, whatever its local queue has, and at the others' local queues:
/// as many as it takes numbers out at once at most. So each that it took has had its job by then, and what a look costs
/// is shared by as many jobs.
const JOBS_PER_LOOK: usize = MOST_TAKEN;

/// After how many jobs a worker that has one number alone looks into the injector, if numbers are queued there.
const JOBS_OF_ONE_PER_LOOK: usize = 8;

/// The result of a job.
#[derive(Clone, Copy, PartialEq, Eq)]
enum Left {
    /// The instance has nothing to do.
    Idle,
    /// The instance has ended.
    Ended,
    /// Signals wait for it, which may all be saved.
    Signals,
    /// There may be more to do.
    More,
}

/// Makes steps of the instance that this ticket names, until it has nothing to do, ends, or has had its turn. The
/// tickets that are to be queued then are in this worker's hand. Refused for lack of memory for the run's own tables:
/// this one is there, too.
pub fn steps_of<J: Run, R: Wait + Copy, G: Gate>(
    shared: &Shared<'_, '_, '_, J, R>,
    own: &mut Own<J>,
    local: &LocalQueue,
    gate: &G,
    ticket: Ticket,
) -> Result<(), AllocError> {
    // The ticket is this thread's, so the lock is free. It is left before the mark is set, so the next that has the
    // ticket finds it free, too.
    let slot = shared.slots.at(&ticket);
    let mut guard = slot.lock(shared.rt, &ticket);
    match turns_at(shared, own, local, gate, &mut guard, ticket.number()) {
        Ok(Left::Idle) => match slot.rest(guard, ticket) {
            Some(again) => shared.put(&mut own.hand, again),
            None => Ok(()),
        },
        Ok(Left::Ended) => {
            slot.end(guard, ticket);
            Ok(())
        }
        Ok(Left::Signals | Left::More) => {
            drop(guard);
            shared.put(&mut own.hand, ticket)
        }
        Err(refused) => {
            drop(guard);
            shared.put(&mut own.hand, ticket)?;
            Err(refused)
        }
    }
}

/// Whether a worker that has so many numbers is to look into the injector, whatever its local queue has. With one alone
/// it does so after fewer jobs, if numbers are queued there: else an instance that sends on and on would have sent much
/// before those to whom it sends get their turn.
pub fn is_to_look<J: Run, R: Wait + Copy>(
    shared: &Shared<'_, '_, '_, J, R>,
    own: &Own<J>,
    numbers: usize,
) -> bool {
    let alone = numbers == 1 && own.jobs >= JOBS_OF_ONE_PER_LOOK;
    own.jobs >= JOBS_PER_LOOK || (alone && shared.tables.signs.has_queued())
}

/// Whether a worker is to look at the others' local queues.
pub fn is_to_look_at_others<J: Run>(own: &Own<J>) -> bool {
    own.lookout.jobs >= JOBS_PER_LOOK
}

/// Counts a job of a worker.
pub fn count_job<J: Run>(own: &mut Own<J>) {
    own.jobs = own.jobs.saturating_add(1);
    own.lookout.jobs = own.lookout.jobs.saturating_add(1);
}

/// The turns of who is in a slot, if somebody is.
fn turns_at<'s, 'p, J: Run, R: Wait + Copy, G: Gate>(
    shared: &Shared<'_, 's, 'p, J, R>,
    own: &mut Own<J>,
    local: &LocalQueue,
    gate: &G,
    kept: &mut Option<Seated<'s, 'p, J, R>>,
    number: u32,
) -> Result<Left, AllocError>
    ensures { IfOk result (λ left. IfSome kept.new (λ seated. IsLeft left seated.value.instance)) }
{
    match kept {
        Some(seated) => turns_of(shared, own, local, gate, seated, number),
        None => Ok(Left::Ended),
    }
}

/// A turn of an instance, and more turns while signals wait for it and this worker has no other number: as if its
/// number had gone into this worker's local queue, and had come out again. Each counts as a job, so what waits in the
/// injector or for a worker that isn't run waits no longer for that.
fn turns_of<'s, 'p, J: Run, R: Wait + Copy, G: Gate>(
    shared: &Shared<'_, 's, 'p, J, R>,
    own: &mut Own<J>,
    local: &LocalQueue,
    gate: &G,
    seated: &mut Seated<'s, 'p, J, R>,
    number: u32,
) -> Result<Left, AllocError>
    ensures { IfOk result (λ left. IsLeft left seated.new.value.instance) }
{
    for _ in 0..JOBS_PER_LOOK {
        let left = turn(shared, own, local, gate, seated, number)?;
        if left != Left::Signals || has_others(own, local) || is_to_look(shared, own, 1) {
            return Ok(left);
        }
        count_job(own);
    }
    Ok(Left::More)
}

/// Whether this worker has a number beside that of its job.
fn has_others<J: Run>(own: &Own<J>, local: &LocalQueue) -> bool {
    !own.hand.is_empty() || !local.is_empty()
}

/// A turn: steps of an instance, until it has nothing to do, ends, or has made so many. Whom a step has created or
/// woken is queued before the next step, so that its number doesn't wait for this worker.
fn turn<'s, 'p, J: Run, R: Wait + Copy, G: Gate>(
    shared: &Shared<'_, 's, 'p, J, R>,
    own: &mut Own<J>,
    local: &LocalQueue,
    gate: &G,
    seated: &mut Seated<'s, 'p, J, R>,
    number: u32,
) -> Result<Left, AllocError>
    ensures { IfOk result (λ left. IsLeft left seated.new.value.instance) }
{
    let mut ahead = Ahead::Perhaps;
    for made in 0..STEPS_PER_TURN {
        if shared.tables.signs.is_closed() || is_to_share(shared, own, local, made) {
            return Ok(Left::More);
        }
        if !own.hand.is_empty() {
            local.put_all(shared.rt, &mut own.hand)?;
        }
        gate.begun(shared.rt, number);
        match step(shared, own, seated)? {
            Stepped::Moved => {}
            Stepped::Idle => return Ok(Left::Idle),
            Stepped::Ended { .. } => return Ok(Left::Ended),
        }
        // A look alone, after all puts of the step. Before: the number is this thread's, so the mark is READY, or AGAIN
        // if something came. After: as before. If nothing was there, the mark is set to rest, which looks for AGAIN.
        // What comes after this look sets it, so the number is queued again then: no wake-up is lost.
        ahead = seated.ahead();
        if ahead == Ahead::Nothing {
            return Ok(Left::Idle);
        }
    }
    Ok(match ahead {
        Ahead::Signals => Left::Signals,
        _ => Left::More,
    })
}

/// Whether a turn in which so many steps were made ends early, since this worker has another number and some worker has
/// none: it shares then. A look, which may be late: the next one is some steps later.
fn is_to_share<J: Run, R: Wait + Copy>(
    shared: &Shared<'_, '_, '_, J, R>,
    own: &Own<J>,
    local: &LocalQueue,
    made: u32,
) -> bool {
    made % STEPS_PER_LOOK == STEPS_PER_LOOK - 1
        && has_others(own, local)
        && shared.tables.signs.has_idle()
}

/// One step of an instance, with all that comes after it: its fuses go into the wheel, whom it has sent something is
/// woken, and who has ended lives no more. Where the course of the run is kept, the step is noted there.
#[tactic(auto, using(crate::proofs::Stepping::has_stepped))]
pub fn step<'s, 'p, J: Run, R: Wait + Copy>(
    shared: &Shared<'_, 's, 'p, J, R>,
    own: &mut Own<J>,
    seated: &mut Seated<'s, 'p, J, R>,
) -> Result<Stepped, AllocError>
    ensures left { IfOk result (λ stepped. HasStepped stepped seated.new.value.instance) }
    ensures off { shared.now.keeps_course ≡ false → OnOk result (seated.new.value.course ≡ seated.old.value.course) }
    ensures noted { IsTrue shared.now.keeps_course
        → IfOk result (λ stepped. HasNoted stepped seated.old.value seated.new.value) }
{
    let told = seated.trace().len();
    let time = own.reader.now();
    own.addressees = Addressees::Nobody;
    let mut runtime = StepRuntime { shared, own };
    let stepped = seated.step(shared.alloc, shared.rt, &mut runtime, time);
    own.arm(shared.rt, shared.tables)?;
    wake_addressees(shared, own, seated.trace(), told)?;
    note_stepped(shared, own, seated, stepped, told);
    count_step(shared, own, stepped);
    Ok(stepped)
}

/// Counts the transition that a step has made, if it has made one.
fn count_step<J: Run, R: Wait + Copy>(
    shared: &Shared<'_, '_, '_, J, R>,
    own: &mut Own<J>,
    stepped: Stepped,
) {
    match stepped {
        Stepped::Moved | Stepped::Ended { counts: true } => count(shared, own),
        Stepped::Idle | Stepped::Ended { counts: false } => {}
    }
}

/// Counts a transition. Once the sum of all is the limit, the run is over: each thread sees that at its next look.
fn count<J: Run, R: Wait + Copy>(shared: &Shared<'_, '_, '_, J, R>, own: &mut Own<J>) {
    own.moves = own.moves.saturating_add(1);
    if own.moves >= own.part {
        tell_moves(shared, own);
    }
}

/// Adds the transitions that this thread made to the sum of all.
pub fn tell_moves<J: Run, R: Wait + Copy>(shared: &Shared<'_, '_, '_, J, R>, own: &mut Own<J>) {
    if own.moves == 0 {
        return;
    }
    if shared.tables.signs.add_moves(own.moves) {
        shared.tables.signs.close();
    }
    own.moves = 0;
}

/// Wakes those to whom a step has sent something, after all that it sends is put. Of several, its record tells: its
/// events there begin at `told`.
fn wake_addressees<J: Run, R: Wait + Copy>(
    shared: &Shared<'_, '_, '_, J, R>,
    own: &mut Own<J>,
    trace: &Record,
    told: usize,
) -> Result<(), AllocError> {
    match own.addressees {
        Addressees::Nobody => Ok(()),
        Addressees::One(number) => wake(shared, own, number),
        Addressees::Several => wake_all(shared, own, trace.receivers_from(told)),
    }
}

/// Wakes all of these.
fn wake_all<J: Run, R: Wait + Copy>(
    shared: &Shared<'_, '_, '_, J, R>,
    own: &mut Own<J>,
    receivers: Receivers<'_>,
) -> Result<(), AllocError> {
    for number in receivers {
        wake(shared, own, number)?;
    }
    Ok(())
}

/// Wakes the instance of this number: where it rests, its ticket is in this thread's hand then. Room for it there is
/// made before there is a ticket.
fn wake<J: Run, R: Wait + Copy>(
    shared: &Shared<'_, '_, '_, J, R>,
    own: &mut Own<J>,
    number: u32,
) -> Result<(), AllocError> {
    let Some(slot) = shared.slots.of(number) else {
        return Ok(());
    };
    own.hand.reserve(1)?;
    if let Some(ticket) = slot.wake() {
        own.hand.push_back_reserved(ticket);
    }
    Ok(())
}
