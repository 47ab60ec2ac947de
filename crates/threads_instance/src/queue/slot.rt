//! The slot of one that steps.

ghost use Rattle.std.specs.Prelude.{◌≡◌, IfSome};
ghost use Rattle.std.specs.Sync.Mutex.{mutex_guard_value};
ghost use Rattle.threads_instance.specs.Numbers.{IsNumber};

use crate::queue::rests::Rests;
use crate::queue::slot_state::{SlotState, Ticket};
use std::sync::{Mutex, MutexGuard, Wait};

/// The slot of one that steps, and its state.
#[derive(Drop)]
pub struct Slot<T: Drop> {
    /// The number of who steps here.
    pub number: u32,
    kept: Mutex<Option<T>>,
    state: SlotState,
    ghost same: { state.number ≡ number },
}

impl<T: Drop> Slot<T> {
    /// The slot of this number, where nobody is.
    pub(crate) fn new(number: u32) -> Self
        requires { IsNumber number }
        ensures { result.number ≡ number }
    {
        Slot {
            number,
            kept: Mutex::new(None),
            state: SlotState::new(number),
        }
    }

    /// Who is there, if somebody is. Only who has the ticket asks, so the lock is free.
    pub fn lock<R: Wait>(&self, rt: &R, ticket: &Ticket) -> MutexGuard<'_, Option<T>>
        requires { ticket.now ≡ self.now.number }
    {
        // Before: the ticket is the caller's, and who had it before left the lock before it queued the ticket. After:
        // what is in the slot is the caller's until the guard goes.
        let _ = ticket;
        self.kept.lock(rt)
    }

    /// Who is there, if somebody is, once the threads are joined: then no other has the ticket.
    pub fn lock_joined<R: Wait>(&self, rt: &R) -> MutexGuard<'_, Option<T>> {
        self.kept.lock(rt)
    }

    /// Puts somebody there who has something to do. The ticket is for the caller to queue. None: somebody is there.
    pub fn enter<R: Wait>(&self, rt: &R, comer: T) -> Option<Ticket>
        ensures { IfSome result (λ ticket. ticket ≡ self.now.number) }
    {
        // Before: nobody is there, and there is no ticket. After: the comer is there, and its state says so only then.
        // Who gets the ticket comes after that, so it finds the slot filled.
        if !self.fill(rt, comer) {
            return None;
        }
        self.state.begin()
    }

    /// Puts somebody there, if nobody is.
    fn fill<R: Wait>(&self, rt: &R, comer: T) -> bool {
        let mut kept = self.kept.lock(rt);
        if kept.is_some() {
            return false;
        }
        *kept = Some(comer);
        true
    }

    /// Notes that something came for who is there. Some: the ticket is for the caller to queue.
    pub fn wake(&self) -> Option<Ticket>
        ensures { IfSome result (λ ticket. ticket ≡ self.now.number) }
    {
        self.state.wake()
    }

    /// Takes out who is there.
    pub fn leave<R: Wait>(&self, rt: &R) -> Option<T> {
        // Before: the threads are joined, so no other has the ticket. After: nobody is there.
        self.kept.lock(rt).take()
    }

    /// Takes back a ticket, though who is there may have something to do. It steps only if something comes.
    pub(crate) fn take_back(&self, ticket: Ticket)
        requires { ticket ≡ self.now.number }
    {
        self.state.take_back(ticket);
    }
}

impl<T: Rests + Drop> Slot<T> {
    /// Notes that who is there found nothing to do. Some: something came meanwhile, and the ticket is for the caller to
    /// queue again. The guard is that of this slot: the caller has the ticket, so it has no other.
    pub fn rest(&self, guard: MutexGuard<'_, Option<T>>, ticket: Ticket) -> Option<Ticket>
        requires number { ticket ≡ self.now.number }
        requires rests { IfSome (mutex_guard_value guard) T.at_rest }
        ensures { IfSome result (λ again. again ≡ self.now.number) }
    {
        // The lock is left before the state is set, so the next that has the ticket finds it free.
        drop(guard);
        self.state.rest(ticket)
    }

    /// Notes that who is there makes no step any more. The guard is that of this slot.
    pub fn end(&self, guard: MutexGuard<'_, Option<T>>, ticket: Ticket)
        requires number { ticket ≡ self.now.number }
        requires ended { IfSome (mutex_guard_value guard) T.ended }
    {
        drop(guard);
        self.state.end(ticket);
    }
}
