//! The slots of what steps.

ghost use Rattle.std.specs.Prelude.{◌≡◌, IfSome, is_some, vec_len};
ghost use Rattle.threads_instance.specs.Slots.{AreNumbered, has_slot};

use crate::queue::refused::Refused;
use crate::queue::slot::Slot;
use crate::queue::slot_state::Ticket;
use crossbeam_utils::CachePadded;
use std::alloc::{AllocError, Global};
use std::collections::VecDeque;

/// How many slots there are: one for each number that may be given.
const MOST_SLOTS: u32 = 1_000;

/// For each of the numbers 1 to 1,000 a slot, which all threads share by `&`. Each is on cache lines of its own, so who
/// steps in one doesn't slow down who steps in the next.
#[derive(Drop)]
pub struct Slots<T: Drop> {
    rows: Vec<CachePadded<Slot<T>>>,
    ghost all: { vec_len rows ≡ 1000 },
    ghost numbered: { AreNumbered rows.items },
}

impl<T: Drop> Slots<T> {
    /// Slots where nobody is. Refused for lack of memory.
    pub fn new(alloc: Global) -> Result<Self, AllocError> {
        let mut rows = Vec::with_capacity(alloc, MOST_SLOTS as usize)?;
        for slot in 0..MOST_SLOTS {
            rows.push(CachePadded::new(Slot::new(slot + 1)))?;
        }
        Ok(Slots { rows })
    }

    /// The slot of a number. None: no instance can have the number.
    pub fn of(&self, number: u32) -> Option<&Slot<T>>
        ensures there { is_some result ≡ has_slot number }
        ensures numbered { IfSome result (λ slot. slot.now.number ≡ number) }
    {
        let row = self.rows.get(number.checked_sub(1)? as usize)?;
        Some(row)
    }

    /// The slot of a ticket.
    pub fn at(&self, ticket: &Ticket) -> &Slot<T>
        ensures { result.now.number ≡ ticket.now }
    {
        &self.rows[(ticket.number() - 1) as usize]
    }

    /// Takes back a ticket for which no queue had room. Who is there steps only if something comes: the run is to end.
    pub fn take_back(&self, refused: Refused) {
        let ticket = refused.ticket();
        self.at(&ticket).take_back(ticket);
    }

    /// Takes back all these tickets: who has something to do is known to nobody any more. By `&mut` no other thread has
    /// the slots.
    pub fn take_back_all(&mut self, tickets: VecDeque<Ticket>) {
        let mut tickets = tickets;
        while let Some(ticket) = tickets.pop_front() {
            self.at(&ticket).take_back(ticket);
        }
        tickets.destroy_empty();
    }
}
