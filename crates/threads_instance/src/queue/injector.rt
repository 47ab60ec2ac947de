//! The common queue, and the workers that sleep.

ghost use Rattle.std.specs.Prelude.{◌≡◌, ◌==◌, ◌≤◌, ◌+◌, ◌/◌, ◌++◌, ◌∷◌, ◌&&◌, [], IfErr, IfOk, MatchResult, OnErr, OnOk, drop, false, length, max, min, take, true};
ghost use Rattle.std.specs.VecDeque.{deque_capacity, deque_len};
ghost use Rattle.threads_instance.specs.Injector.{AreAsleep, HasWork, InjectorState, IsExchanged, IsServed, IsTold, IsWoken, part, without};

use crate::queue::refused::{Refused, put};
use crate::queue::slot_state::Ticket;
use std::alloc::{AllocError, Global};
use std::collections::VecDeque;
use std::marker::Model;

/// How many numbers the queue has room for from the start: each number is in it once at most.
const MOST_NUMBERS: usize = 1_000;

/// How many numbers a worker takes out at once, at most. Of those that it takes out of turn, it steps each before it
/// asks again, if it has so many jobs between.
pub const MOST_TAKEN: usize = 61;

/// The common queue of the tickets of those that have something to do, and who of the workers sleeps. A lock is
/// round it; each call is short, and takes no memory. In a clause each ticket is its number. It can't be let go, since
/// no ticket can: its end is `into_queue`.
pub struct Injector {
    queue: VecDeque<Ticket>,
    asleep: Vec<usize>,
    workers: usize,
    closed: bool,
}

/// The next turn of a worker.
#[derive(Clone, Copy, PartialEq, Eq)]
pub enum Turn {
    /// It has numbers in its own queue. More are left, for this worker that sleeps: it is to be unparked.
    Work { wake: Option<usize> },
    /// There is nothing to do, and it is noted as asleep: it is to park. `rest`: all of the workers are asleep now.
    Sleep { rest: bool },
    /// The run is over. This worker that sleeps is to be unparked, so that it ends too.
    End { wake: Option<usize> },
}

impl Model for Injector {
    ghost use Rattle.threads_instance.specs.Injector.{InjectorState};

    ghost Value = { InjectorState };

    ghost view = { λ h. record {
      queue = h.queue.items;
      asleep = h.asleep.items;
      workers = h.workers;
      closed = h.closed;
    } };
}

impl Injector {
    /// An empty queue, for so many workers, none of which sleeps. Refused for lack of memory.
    pub fn new(alloc: Global, workers: usize) -> Result<Self, AllocError>
        ensures { IfOk result (λ injector. injector ≡ record { queue = []; asleep = []; workers = workers; closed = false }) }
    {
        let asleep = Vec::with_capacity(alloc, workers)?;
        let queue = VecDeque::with_capacity(alloc, MOST_NUMBERS)?;
        Ok(Injector {
            queue,
            asleep,
            workers,
            closed: false,
        })
    }

    /// Says how many workers there are: of those that were wanted, some could not be started.
    pub fn set_workers(&mut self, workers: usize)
        ensures { self.new ≡ record self.old { workers = workers } }
    {
        self.workers = workers;
    }

    /// Queues a ticket.
    pub fn add(&mut self, ticket: Ticket) -> Result<(), Refused>
        ensures queued { MatchResult result (λ _. self.new ≡ record self.old { queue = self.old.queue ++ ticket ∷ [] })
            (λ _. self.new ≡ self.old) }
        ensures back { IfErr result (λ refused. refused ≡ ticket) }
    {
        put(&mut self.queue, ticket)
    }

    /// Queues all of these tickets, in their order. Refused for lack of memory: they stay where they are.
    pub fn add_all(&mut self, numbers: &mut VecDeque<Ticket>) -> Result<(), AllocError>
        ensures queued { OnOk result (self.new ≡ record self.old { queue = self.old.queue ++ numbers.old.items }) }
        ensures moved { OnOk result (numbers.new.items ≡ []) }
        ensures refused { OnErr result ((self.new ≡ self.old) × (numbers.new.items ≡ numbers.old.items)) }
    {
        self.queue.append(numbers)
    }

    /// Gives the worker `me`, whose own queue is empty, its next turn. It is noted as awake first, also where it woke
    /// by itself. Its part of the common queue goes into its own. Refused for lack of memory: both queues stay as they
    /// are.
    pub fn turn(&mut self, me: usize, own: &mut VecDeque<Ticket>) -> Result<Turn, AllocError>
        ensures told { IfOk result (λ turn. IsTold turn self.old self.new) }
        ensures numbers { IfOk result (λ turn. IsServed turn self.old own.old.items self.new own.new.items) }
        ensures work { IfOk result (λ turn. HasWork turn own.new.items) }
        ensures sleepers { IfOk result (λ turn. AreAsleep me turn self.old self.new) }
        ensures refused { OnErr result ((self.new ≡ record self.old { asleep = without me self.old.asleep })
            × (own.new.items ≡ own.old.items)) }
        ensures same { (self.new.workers ≡ self.old.workers) × (self.new.closed ≡ self.old.closed) }
    {
        self.rouse(me);
        if self.closed {
            return Ok(Turn::End {
                wake: self.asleep.pop(),
            });
        }
        if self.queue.is_empty() {
            self.asleep.push(me)?;
            return Ok(Turn::Sleep {
                rest: self.asleep.len() == self.workers,
            });
        }
        self.take(own)?;
        if self.queue.is_empty() {
            return Ok(Turn::Work { wake: None });
        }
        Ok(Turn::Work {
            wake: self.asleep.pop(),
        })
    }

    /// Has a worker look into the queue out of turn, whatever its own queue has, so that no number waits for ever:
    /// numbers from the queue's front come to its own front, as many as its part is, or more. As many of its own first
    /// ones go to the queue's end, if it has so many. Refused for lack of memory: both queues stay as they are.
    pub fn exchange(&mut self, own: &mut VecDeque<Ticket>) -> Result<(), AllocError>
        ensures exchanged { OnOk result (IsExchanged self.old own.old.items self.new own.new.items) }
        ensures refused { OnErr result ((self.new ≡ self.old) × (own.new.items ≡ own.old.items)) }
    {
        let given = own.len().min(self.queue.len()).min(MOST_TAKEN);
        let taken = given.max(self.part());
        self.queue.reserve(given)?;
        own.reserve(taken)?;
        move_first(own, &mut self.queue, given);
        move_to_front(&mut self.queue, own, taken);
        Ok(())
    }

    /// Takes the first half of a worker's own queue, for one that sleeps, which is to be unparked. Refused for lack of
    /// memory: nothing has changed.
    pub fn share(&mut self, own: &mut VecDeque<Ticket>) -> Result<Option<usize>, AllocError>
        ensures queue { OnOk result (self.new.queue ≡ self.old.queue ++ take (length own.old.items / 2) own.old.items) }
        ensures own { OnOk result (own.new.items ≡ drop (length own.old.items / 2) own.old.items) }
        ensures woken { IfOk result (λ wake. IsWoken wake self.old.asleep self.new.asleep) }
        ensures refused { OnErr result ((self.new ≡ self.old) × (own.new.items ≡ own.old.items)) }
        ensures same { (self.new.workers ≡ self.old.workers) × (self.new.closed ≡ self.old.closed) }
    {
        let half = own.len() / 2;
        self.queue.reserve(half)?;
        move_first(own, &mut self.queue, half);
        Ok(self.asleep.pop())
    }

    /// A worker that sleeps, which is to be unparked: there is something in the queue, or the run is over.
    pub fn sleeper(&mut self) -> Option<usize>
        ensures woken { IsWoken result self.old.asleep self.new.asleep }
        ensures same { self.new ≡ record self.old { asleep = self.new.asleep } }
    {
        self.asleep.pop()
    }

    /// How many numbers are in the queue.
    pub fn queued(&self) -> usize
        ensures { result ≡ length self.now.queue }
    {
        self.queue.len()
    }

    /// How many workers sleep.
    pub fn sleepers(&self) -> usize
        ensures { result ≡ length self.now.asleep }
    {
        self.asleep.len()
    }

    /// Whether nobody steps and nobody is to: all of the workers sleep, and the queue is empty.
    pub fn is_at_rest(&self) -> bool
        ensures { result ≡ (length self.now.asleep == self.now.workers) && (length self.now.queue == 0) }
    {
        self.asleep.len() == self.workers && self.queue.is_empty()
    }

    /// Ends the run: each worker ends at its next turn.
    pub fn close(&mut self)
        ensures { self.new ≡ record self.old { closed = true } }
    {
        self.closed = true;
    }

    /// Whether the run is over.
    pub fn is_closed(&self) -> bool
        ensures { result ≡ self.now.closed }
    {
        self.closed
    }

    /// Its tickets, once the threads are joined.
    pub fn into_queue(self) -> VecDeque<Ticket>
        ensures items { result.items ≡ self.queue }
        ensures len { deque_len result ≡ length self.queue }
    {
        let Injector {
            queue,
            asleep: _,
            workers: _,
            closed: _,
        } = self;
        queue
    }

    /// Notes that the worker `me` is awake, also where it woke by itself.
    fn rouse(&mut self, me: usize)
        ensures { self.new ≡ record self.old { asleep = without me self.old.asleep } }
    {
        self.asleep.retain(|other| *other != me);
    }

    /// How many of the numbers in the queue are a worker's part: as many as each of the workers gets, one at least.
    fn part(&self) -> usize
        ensures { result ≡ part self.now.workers (length self.now.queue) }
    {
        let waiting = self.queue.len();
        let part = waiting / self.workers.max(1);
        part.min(MOST_TAKEN).max(1).min(waiting)
    }

    /// Moves a worker's part of the queue to the end of its own. Refused for lack of memory: nothing has changed.
    fn take(&mut self, own: &mut VecDeque<Ticket>) -> Result<(), AllocError>
        ensures queue { OnOk result (self.new ≡ record self.old { queue = drop (part self.old.workers (length self.old.queue)) self.old.queue }) }
        ensures own { OnOk result (own.new.items ≡ own.old.items ++ take (part self.old.workers (length self.old.queue)) self.old.queue) }
        ensures refused { OnErr result ((self.new ≡ self.old) × (own.new.items ≡ own.old.items)) }
    {
        let part = self.part();
        own.reserve(part)?;
        move_first(&mut self.queue, own, part);
        Ok(())
    }
}

/// Moves so many of the first numbers of one queue to the end of another, which has room for them.
fn move_first(from: &mut VecDeque<Ticket>, to: &mut VecDeque<Ticket>, count: usize)
    requires enough { count ≤ deque_len from.old }
    requires room { deque_len to.old + count ≤ deque_capacity to.old }
    ensures from { from.new.items ≡ drop count from.old.items }
    ensures to { to.new.items ≡ to.old.items ++ take count from.old.items }
    ensures from_len { deque_len from.new + count ≡ deque_len from.old }
    ensures to_len { deque_len to.new ≡ deque_len to.old + count }
    ensures from_capacity { deque_capacity from.new ≡ deque_capacity from.old }
    ensures to_capacity { deque_capacity to.new ≡ deque_capacity to.old }
{
    for _moved in 0..count {
        if let Some(ticket) = from.pop_front() {
            to.push_back_reserved(ticket);
        }
    }
}

/// Moves so many of the first numbers of one queue to the front of another, which has room for them.
#[tactic(auto, using(crate::proofs::Moving::turned))]
fn move_to_front(from: &mut VecDeque<Ticket>, to: &mut VecDeque<Ticket>, count: usize)
    requires enough { count ≤ deque_len from.old }
    requires room { deque_len to.old + count ≤ deque_capacity to.old }
    ensures from { from.new.items ≡ drop count from.old.items }
    ensures to { to.new.items ≡ take count from.old.items ++ to.old.items }
{
    move_first(from, to, count);
    to.rotate_right(count);
}
