//! Tickets that are queued, and a ticket that found no room.

ghost use Rattle.std.specs.Prelude.{◌≡◌, ◌++◌, ◌∷◌, [], IfErr, MatchResult};

use crate::queue::slot_state::Ticket;
use std::alloc::AllocFailed;
use std::collections::VecDeque;
use std::marker::Model;

/// A ticket for which a queue found no memory. Its slot takes it back, and nobody else can.
pub struct Refused {
    ticket: Ticket,
}

impl Model for Refused {
    ghost use Rattle.std.specs.Prelude.{ℕ};

    ghost Value = { ℕ };

    ghost view = { λ refused. refused.ticket };
}

impl Refused {
    /// The ticket, for its slot.
    pub(crate) fn ticket(self) -> Ticket
        ensures { result ≡ self }
    {
        let Refused { ticket } = self;
        ticket
    }
}

/// Queues a ticket as the last one. Refused for lack of memory: the queue stays as it is.
pub fn put(queue: &mut VecDeque<Ticket>, ticket: Ticket) -> Result<(), Refused>
    ensures queued { MatchResult result (λ _. queue.new.items ≡ queue.old.items ++ ticket ∷ [])
        (λ _. queue.new.items ≡ queue.old.items) }
    ensures back { IfErr result (λ refused. refused ≡ ticket) }
{
    match queue.push_back(ticket) {
        Ok(()) => Ok(()),
        Err(AllocFailed { value }) => Err(Refused { ticket: value }),
    }
}
