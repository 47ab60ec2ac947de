//! What a run lends to its threads.

ghost use Rattle.std.specs.Coded.{codes};
ghost use Rattle.std.specs.Prelude.{◌≡◌, Some};
ghost use Rattle.std.specs.VecDeque.{deque_len};
ghost use Rattle.sdl_system.specs.contracts.expression.Expression as expression;

use crate::common::Common;
use crate::tables::Tables;
use input_port::Held;
use sdl_system::System;
use std::alloc::{AllocError, Global};
use std::collections::VecDeque;
use std::sync::Wait;
use threads_instance::{Slots, ThreadInstance, Ticket, put};
use threads_ports::Run;

/// An instance in its slot.
pub type Seated<'s, 'p, J, R> = Box<ThreadInstance<'s, J, Held<'p, R>>>;

/// The things that a run lends to its threads: references, and whether the run's course is kept, so that the one order
/// of all can be told. The type says that the system is the one that the run names.
#[derive(Drop)]
pub struct Shared<'l, 's, 'p, J: Run, R: Wait + Copy> {
    pub alloc: Global,
    pub rt: &'p R,
    pub system: &'s System,
    pub common: &'p Common<J>,
    pub tables: &'l Tables,
    pub slots: &'l Slots<Seated<'s, 'p, J, R>>,
    pub keeps_course: bool,
    ghost system_is: { J.system ≡ Some system.now } by { Prim.hlevel (codes, expression.the_row.coded) },
}

impl<'l, 's, 'p, J: Run, R: Wait + Copy> Shared<'l, 's, 'p, J, R> {
    /// Queues a ticket in the injector. The answer is a worker that sleeps, which is to be unparked. Refused for lack
    /// of memory: its slot has the ticket back, and the run is to end.
    pub fn queue(&self, ticket: Ticket) -> Result<Option<usize>, AllocError> {
        match self.tables.queue(self.rt, ticket) {
            Ok(wake) => Ok(wake),
            Err(refused) => {
                self.slots.take_back(refused);
                Err(AllocError)
            }
        }
    }

    /// Queues all these tickets in the injector, for who ends, or is the one thread that is left. It wakes nobody. A
    /// ticket for which there is no room goes back to its slot.
    pub fn queue_all(&self, tickets: &mut VecDeque<Ticket>)
        ensures { deque_len tickets.new ≡ 0 }
    {
        // Before: the tickets are the caller's. After: they are in the injector's queue, or no more. Those that are
        // noted as asleep stay so: if the run is over, they are unparked one by one, and none may be left out. If it
        // isn't, the caller has found no memory, and ends it next.
        let mut injector = self.tables.injector.lock(self.rt);
        while let Some(ticket) = tickets.pop_front() {
            if let Err(refused) = injector.add(ticket) {
                self.slots.take_back(refused);
            }
        }
        self.tables.signs.note(&injector);
    }

    /// Puts a ticket into a thread's hand, as the last one. Refused for lack of memory: its slot has the ticket back,
    /// and the run is to end.
    pub fn put(&self, hand: &mut VecDeque<Ticket>, ticket: Ticket) -> Result<(), AllocError> {
        match put(hand, ticket) {
            Ok(()) => Ok(()),
            Err(refused) => {
                self.slots.take_back(refused);
                Err(AllocError)
            }
        }
    }
}
