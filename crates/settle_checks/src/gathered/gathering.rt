//! A port that gathers its senders.

ghost use Rattle.std.specs.Prelude.{◌≡◌, ◌+◌, ◌≤◌, IfOk, OnOk};
ghost use Rattle.threads_ports.specs.Peers.{put_by};
ghost use Rattle.settle_checks.specs.Gathering.{PutNothing};

use crate::gathered::{Counted, Fault, Fixed};
use input_port::{Held, Sender};
use std::marker::{Model, PhantomData};
use std::sync::Wait;
use threads_ports::Run;

/// The port of an instance, which gathers its senders by ascending places. `at` is its place among the owners, `number`
/// its number, `next` the place after the last one that was gathered, and `sent` how many signals the gathered ones have
/// put.
#[derive(Drop)]
pub struct Gathering<'a, J: Run, K: Fixed, R: Wait + Copy> {
    at: u32,
    number: u32,
    next: u32,
    sent: u64,
    inbox: Held<'a, R>,
    of: PhantomData<(J, K)>,
}

impl<'a, J: Run, K: Fixed, R: Wait + Copy> Model for Gathering<'a, J, K, R> {
    ghost use Rattle.std.specs.Prelude.{◌≡◌};
    ghost use Rattle.settle_checks.specs.Gathering.{GatheringState, IsGathering};

    ghost Value = { GatheringState };

    ghost view = { λ g. record { at = g.at; number = g.number; next = g.next; owner = g.inbox.owner } };

    ghost invariant = { λ g. (g.inbox.owner.port ≡ J.ports g.number)
        × IsGathering (K.puts g.number) g.next g.sent (K.owners g.at) g.inbox.owner };
}

impl<'a, J: Run, K: Fixed, R: Wait + Copy> Gathering<'a, J, K, R> {
    /// The port of a number, which has gathered nobody. That its owner is the one that the name says is the caller's
    /// condition. Lost: it has gathered somebody.
    pub fn new(at: u32, number: u32, inbox: Held<'a, R>) -> Result<Self, Fault>
        requires owner { inbox.owner ≡ K.owners at }
        requires port { inbox.owner.port ≡ J.ports number }
        ensures { IfOk result (λ g. g ≡ record { at = at; number = number; next = 0; owner = inbox.entry.owner }) }
    {
        if inbox.gathered() != 0 {
            return Err(Fault::Lost(number));
        }
        Ok(Gathering {
            at,
            number,
            next: 0,
            sent: 0,
            inbox,
            of: PhantomData,
        })
    }

    /// The number of the port.
    pub fn number(&self) -> u32
        ensures { result ≡ self.now.number }
    {
        self.number
    }

    /// Gathers the sender of a place. That it has put what the place has put, and that the places between the last one
    /// and this one have put nothing, is the caller's condition. Lost: this place or a later one was gathered before.
    pub fn gather(&mut self, place: u32, sender: Sender) -> Result<(), Fault>
        requires puts { self.old.next ≤ place → put_by sender ≡ K.puts self.old.number place }
        requires port { sender.port ≡ J.ports self.old.number }
        requires between { PutNothing (K.puts self.old.number) self.old.next place }
        ensures next { OnOk result (self.new.next ≡ place + 1) }
        ensures at { self.new.at ≡ self.old.at }
        ensures number { self.new.number ≡ self.old.number }
    {
        if place < self.next {
            return Err(Fault::Lost(self.number));
        }
        let Some(next) = place.checked_add(1) else {
            return Err(Fault::Lost(self.number));
        };
        let Some(sent) = self.sent.checked_add(sender.sent()) else {
            return Err(Fault::Lost(self.number));
        };
        if self.inbox.gather(sender).is_err() {
            return Err(Fault::Memory);
        }
        self.sent = sent;
        self.next = next;
        Ok(())
    }

    /// Draws all that is in the port, and counts, once the senders of so many places were gathered. That the places after
    /// the last one have put nothing is the caller's condition. Lost: a later place was gathered, or other signals were
    /// drawn than the gathered senders have put.
    pub fn count(self, places: u32) -> Result<Counted<'a, J, K, R>, Fault>
        requires rest { PutNothing (K.puts self.number) self.next places }
        ensures at { IfOk result (λ c. c.at ≡ self.entry.at) }
        ensures number { IfOk result (λ c. c.number ≡ self.entry.number) }
        ensures places { IfOk result (λ c. c.places ≡ places) }
    {
        let Gathering {
            at,
            number,
            next,
            sent,
            mut inbox,
            ..
        } = self;
        if places < next {
            return Err(Fault::Lost(number));
        }
        if inbox.drain().is_err() {
            return Err(Fault::Memory);
        }
        if inbox.signals() != sent {
            return Err(Fault::Lost(number));
        }
        inbox.knows();
        Ok(Counted::new(at, number, places, inbox))
    }
}
