//! The local queue of a worker.

ghost use Rattle.std.specs.Prelude.{◌≡◌, ◌++◌, [], false, IfOk, OnErr, OnOk, option_to_list, true};
ghost use Rattle.threads_instance.specs.Injector.{AreAsleep, InjectorState, IsTold, IsWoken, without};
ghost use Rattle.threads_instance.specs.Local.{HasMore};

use crate::queue::injector::{Injector, Turn};
use crate::queue::slot_state::Ticket;
use std::alloc::{AllocError, Global};
use std::collections::VecDeque;
use std::sync::atomic::{AtomicU64, AtomicUsize, Ordering};
use std::sync::{Mutex, Wait};

/// How many numbers a queue has room for from the start: each number is in it once at most.
const MOST_NUMBERS: usize = 1_000;

/// The numbers that one worker is to step next. Only that worker puts numbers in. If the system doesn't run it, another
/// one moves them into the injector, so they don't wait for it. What the worker has in hand is in no queue.
///
/// The order of locks: that of the injector comes first, then that of a local queue. Who has a local queue's waits for
/// no other.
pub struct LocalQueue {
    numbers: Mutex<VecDeque<Ticket>>,
    length: AtomicUsize,
    visits: AtomicU64,
}

impl LocalQueue {
    /// An empty queue, to which its worker hasn't come yet. It has no room yet, so it takes no memory.
    pub fn new(alloc: Global) -> Self {
        LocalQueue {
            numbers: Mutex::new(VecDeque::new(alloc)),
            length: AtomicUsize::new(0),
            visits: AtomicU64::new(0),
        }
    }

    /// Makes room for all numbers. Refused for lack of memory.
    pub fn reserve<R: Wait>(&self, rt: &R) -> Result<(), AllocError> {
        // Before and after: the same numbers are in the queue.
        self.numbers.lock(rt).reserve(MOST_NUMBERS)
    }

    /// Its tickets, once the threads are joined.
    pub fn into_queue(self) -> VecDeque<Ticket> {
        let LocalQueue {
            numbers,
            length: _,
            visits: _,
        } = self;
        numbers.into_inner()
    }

    /// How many numbers it has. A look, which may be late, since another worker may take them out. Where its own worker
    /// sees none, there is none: only that one puts numbers in.
    pub fn len(&self) -> usize {
        self.length.load(Ordering::SeqCst)
    }

    /// Whether it has no number. A look, as `len` is.
    pub fn is_empty(&self) -> bool {
        self.len() == 0
    }

    /// How often its worker has come to it. A look.
    pub fn visits(&self) -> u64 {
        self.visits.load(Ordering::SeqCst)
    }

    /// Puts all that its worker has in hand at its end, in that order. Refused for lack of memory: it stays in hand.
    pub fn put_all<R: Wait>(&self, rt: &R, hand: &mut VecDeque<Ticket>) -> Result<(), AllocError>
        ensures moved { OnOk result (hand.new.items ≡ []) }
        ensures refused { OnErr result (hand.new.items ≡ hand.old.items) }
    {
        // Before: the numbers in hand are the caller's, and are in no queue. After: they are in this one, in which
        // another worker finds them if this one isn't run. It wakes nobody: this worker is awake, and steps them next
        // or shares.
        let mut numbers = self.numbers.lock(rt);
        numbers.append(hand)?;
        self.come(&numbers);
        Ok(())
    }

    /// Puts all that its worker has in hand at its end, and takes out the first number of all for its next job. None:
    /// there is no number. Refused for lack of memory: nothing has changed.
    pub fn next<R: Wait>(
        &self,
        rt: &R,
        hand: &mut VecDeque<Ticket>,
    ) -> Result<Option<Ticket>, AllocError>
        ensures moved { OnOk result (hand.new.items ≡ []) }
        ensures refused { OnErr result (hand.new.items ≡ hand.old.items) }
    {
        // Only its worker puts numbers in, so an empty queue stays so. Then the number in hand is the first of all.
        if self.is_empty() && hand.len() <= 1 {
            return Ok(hand.pop_front());
        }
        // Before: the numbers in hand are the caller's, and those of the queue are in it, unless another worker has
        // taken them meanwhile. After: the first of all is the caller's, and all others are in the queue. So a worker
        // that isn't run from here on keeps this number alone.
        let mut numbers = self.numbers.lock(rt);
        let first = first_of(&mut numbers, hand)?;
        self.come(&numbers);
        Ok(first)
    }

    /// Gives its worker `me`, which has no number, its next turn from the injector: its part of the injector's queue
    /// goes into this one. Refused for lack of memory: both queues stay as they are.
    pub fn turn<R: Wait>(
        &self,
        rt: &R,
        injector: &mut Injector,
        me: usize,
    ) -> Result<Turn, AllocError>
        ensures told { IfOk result (λ turn. IsTold turn injector.old injector.new) }
        ensures sleepers { IfOk result (λ turn. AreAsleep me turn injector.old injector.new) }
        ensures refused { OnErr result (injector.new ≡ record injector.old { asleep = without me injector.old.asleep }) }
        ensures same { (injector.new.workers ≡ injector.old.workers) × (injector.new.closed ≡ injector.old.closed) }
    {
        // Before: this queue is empty, and stays so, since only the caller puts numbers in. After: it has some from the
        // injector, or it is empty still, and the caller is noted as asleep or ends. Both locks are held, so who sees
        // the caller asleep, in the injector, finds nothing here.
        let mut numbers = self.numbers.lock(rt);
        let turn = injector.turn(me, &mut numbers)?;
        self.come(&numbers);
        Ok(turn)
    }

    /// Has its worker look into the injector out of turn: its first numbers go there, and others come from there.
    /// Refused for lack of memory: both queues stay as they are.
    pub fn exchange<R: Wait>(&self, rt: &R, injector: &mut Injector) -> Result<(), AllocError>
        ensures same { injector.new ≡ record injector.old { queue = injector.new.queue } }
        ensures refused { OnErr result (injector.new ≡ injector.old) }
    {
        // Before and after: each number is in one of the two queues. Both locks are held, so nobody finds it in
        // neither.
        let mut numbers = self.numbers.lock(rt);
        injector.exchange(&mut numbers)?;
        self.come(&numbers);
        Ok(())
    }

    /// Gives its first half to the injector, for a worker that sleeps, which is to be unparked. Refused for lack of
    /// memory: both queues stay as they are.
    pub fn share<R: Wait>(
        &self,
        rt: &R,
        injector: &mut Injector,
    ) -> Result<Option<usize>, AllocError>
        ensures woken { IfOk result (λ wake. IsWoken wake injector.old.asleep injector.new.asleep) }
        ensures refused { OnErr result (injector.new ≡ injector.old) }
        ensures same { (injector.new.workers ≡ injector.old.workers) × (injector.new.closed ≡ injector.old.closed) }
    {
        // Before and after: each number is in one of the two queues. Both locks are held, so nobody finds it in
        // neither.
        let mut numbers = self.numbers.lock(rt);
        let wake = injector.share(&mut numbers)?;
        self.come(&numbers);
        Ok(wake)
    }

    /// Moves all of its numbers to the end of the injector's queue, for another worker, if its own one hasn't come to
    /// it since it had come so often. False: it has come since, nothing is here, or somebody has the lock. Refused for
    /// lack of memory: both queues stay as they are.
    pub fn relieve(&self, injector: &mut Injector, visits: u64) -> Result<bool, AllocError>
        ensures moved { IfOk result (λ moved. moved ≡ true → HasMore injector.old injector.new) }
        ensures left { IfOk result (λ moved. moved ≡ false → injector.new ≡ injector.old) }
        ensures refused { OnErr result (injector.new ≡ injector.old) }
    {
        // Before: these numbers are in this queue, and its worker may have one more in hand, which it steps. After:
        // they are in the injector's queue, and no other number has moved. Its worker finds none here when it is run
        // again, and asks the injector then. It was awake and is, so the run isn't at rest. The lock is not waited for:
        // who has it may not be run, and the caller has the injector's.
        let Some(mut numbers) = self.numbers.try_lock() else {
            return Ok(false);
        };
        if self.visits() != visits || numbers.is_empty() {
            return Ok(false);
        }
        injector.add_all(&mut numbers)?;
        self.note(&numbers);
        Ok(true)
    }

    /// Notes that its worker has come, and how many numbers there are now. The caller is that worker, and has the lock.
    fn come(&self, numbers: &VecDeque<Ticket>) {
        // Before: so many visits as there were. After: one more. Only this thread adds, so who reads the same number
        // twice knows that the worker hasn't come between.
        self.visits.fetch_add(1, Ordering::SeqCst);
        self.note(numbers);
    }

    /// Notes how many numbers there are. The caller has the lock.
    fn note(&self, numbers: &VecDeque<Ticket>) {
        // Before: the word is as it was when the lock was left last. After: as the queue is. Where it is so already it
        // isn't written, since others look at it.
        if self.len() != numbers.len() {
            self.length.store(numbers.len(), Ordering::SeqCst);
        }
    }
}

/// Puts all in hand at the end of a queue, and takes out the first number of all. Refused for lack of memory: nothing
/// has changed.
fn first_of(
    queue: &mut VecDeque<Ticket>,
    hand: &mut VecDeque<Ticket>,
) -> Result<Option<Ticket>, AllocError>
    ensures first { IfOk result (λ first.
        queue.old.items ++ hand.old.items ≡ option_to_list first ++ queue.new.items) }
    ensures moved { OnOk result (hand.new.items ≡ []) }
    ensures refused { OnErr result ((queue.new.items ≡ queue.old.items) × (hand.new.items ≡ hand.old.items)) }
{
    queue.append(hand)?;
    Ok(queue.pop_front())
}
