//! What a slot's number is: in a queue or not; and the ticket that says so.

ghost use Rattle.std.specs.Prelude.{◌≡◌, ◌≤◌, IfSome};
ghost use Rattle.threads_instance.specs.Numbers.{IsNumber};

use std::marker::Model;
use std::sync::atomic::{AtomicU32, Ordering};

/// Nobody is there that can step: not yet, or no more.
const OVER: u32 = 0;
/// It has nothing to do, and its number is in no queue.
const IDLE: u32 = 1;
/// Its number is in a queue, or a worker has it.
const READY: u32 = 2;
/// As READY, and something came since.
const AGAIN: u32 = 3;

/// The right to queue a number, and to step whom it names. Only the state of its slot makes one, where there is none:
/// so a number is in one queue at most, or one thread has it. It can't be copied, and it can't be let go: a queue has
/// it, a thread has it, or its state takes it back.
pub struct Ticket {
    number: u32,
}

impl Model for Ticket {
    ghost use Rattle.std.specs.Prelude.{ℕ};

    ghost Value = { ℕ };

    ghost use Rattle.threads_instance.specs.Numbers.{IsNumber};

    ghost view = { λ ticket. ticket.number };

    ghost invariant = { λ ticket. IsNumber ticket.number };
}

impl Ticket {
    /// Whom it names.
    pub fn number(&self) -> u32
        ensures number { result ≡ self.now }
        ensures there { IsNumber result }
    {
        self.number
    }
}

/// The state of a slot. A state is set after what it tells of, so who sees the state sees that too.
#[derive(Drop)]
pub struct SlotState {
    number: u32,
    word: AtomicU32,
    ghost there: { IsNumber number },
}

impl SlotState {
    /// The state of a slot where nobody is.
    pub fn new(number: u32) -> Self
        requires { IsNumber number }
        ensures { result.number ≡ number }
    {
        SlotState {
            number,
            word: AtomicU32::new(OVER),
        }
    }

    /// Notes that somebody came who has something to do, where nobody was that can step.
    pub fn begin(&self) -> Option<Ticket>
        ensures { IfSome result (λ ticket. ticket ≡ self.now.number) }
    {
        // Before: OVER, so there is no ticket. After: READY, and the ticket is the caller's.
        if self.turn(OVER, READY) {
            Some(self.ticket())
        } else {
            None
        }
    }

    /// Notes that something came. The caller has put what came before.
    pub fn wake(&self) -> Option<Ticket>
        ensures { IfSome result (λ ticket. ticket ≡ self.now.number) }
    {
        // A look. AGAIN: whoever has the ticket looks once more after it takes AGAIN back, so after what came. OVER: it
        // takes nothing any more, or it starts later and takes what came then.
        let seen = self.word.load(Ordering::SeqCst);
        if seen == OVER || seen == AGAIN {
            return None;
        }
        // Before: READY, where it was so at the look. After: AGAIN, so whoever has the ticket looks once more. Where it
        // is something else meanwhile, the next step decides.
        if seen == READY && self.turn(READY, AGAIN) {
            return None;
        }
        // Before: IDLE, so there is no ticket. After: READY, and the ticket is the caller's. Where it is something
        // else, another thread has set it since what came: what that one queues, or has, takes what came.
        if self.turn(IDLE, READY) {
            Some(self.ticket())
        } else {
            None
        }
    }

    /// Notes that who has the ticket found nothing to do. Some: something came meanwhile, so the ticket is the caller's
    /// again.
    pub fn rest(&self, ticket: Ticket) -> Option<Ticket>
        requires { ticket ≡ self.now.number }
        ensures { IfSome result (λ again. again ≡ self.now.number) }
    {
        // Before: READY, as the ticket is the caller's. After: IDLE, and the ticket is no more: the next that comes
        // gets one.
        if self.turn(READY, IDLE) {
            ticket.give_back();
            return None;
        }
        // It was AGAIN, which no other thread changes. After: READY. What came before the AGAIN is found at the next
        // look, which is after this.
        self.word.store(READY, Ordering::SeqCst);
        Some(ticket)
    }

    /// Notes that nobody is there any more who can step.
    pub fn end(&self, ticket: Ticket)
        requires { ticket ≡ self.now.number }
    {
        // Before: READY or AGAIN, as the ticket is the caller's. After: OVER for good, and the ticket is no more. What
        // came, and comes, is taken by nobody.
        self.word.store(OVER, Ordering::SeqCst);
        ticket.give_back();
    }

    /// Notes that nobody is to step who is there, though it may have something to do.
    pub fn take_back(&self, ticket: Ticket)
        requires { ticket ≡ self.now.number }
    {
        // Before: READY or AGAIN, as the ticket is the caller's. After: IDLE, and the ticket is no more: the next that
        // comes gets one.
        self.word.store(IDLE, Ordering::SeqCst);
        ticket.give_back();
    }

    /// The ticket. There is no other: the caller has just set the state to READY, from what it is where there is none.
    fn ticket(&self) -> Ticket
        ensures { result ≡ self.now.number }
    {
        Ticket {
            number: self.number,
        }
    }

    /// One exchange: whether the state was `from`, and is `to` after it.
    fn turn(&self, from: u32, to: u32) -> bool {
        self.word
            .compare_exchange(from, to, Ordering::SeqCst, Ordering::SeqCst)
            .is_ok()
    }
}

impl Ticket {
    /// It is no more. Its state says so, before or just after.
    fn give_back(self) {
        let Ticket { number: _ } = self;
    }
}
