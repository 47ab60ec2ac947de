//! What an instance sends with.

ghost use Rattle.std.specs.Prelude.{◌≡◌, ◌≤◌, ◌++◌, ◌∷◌, [], ℕ, false, true, IfErr, MatchResult, OnOk};
ghost use Rattle.port_model.specs.declared.inbox.entry.Entry.TheVariants.{Timer};
ghost use Rattle.threads_instance.specs.Outbox.{AreEnds};
ghost use Rattle.threads_ports.specs.Peers.{is_known, put_by, GivesBack, PutsTo};

use crate::sent::SentList;
use input_port::{Port, Sender};
use port_model::{Fuse, Item, Refused, Ticks};
use std::alloc::{AllocError, Global};
use std::marker::Model;
use std::sync::Wait;
use threads_ports::{NotPut, Peers, Run};

/// The senders of an instance, and what it has sent. `sent` is for proofs alone and takes no memory: so that a contract
/// can say what was put, and what was sent before there was a sender.
#[derive(Drop)]
pub struct Outbox<J: Run> {
    peers: Peers<J>,
    sent: SentList<u32, Item>,
}

impl<J: Run> Model for Outbox<J> {
    ghost use Rattle.threads_instance.specs.Outbox.{AreEnds, OutboxState};

    ghost Value = { OutboxState };

    ghost view = { λ o. record { peers = o.peers; sent = o.sent.items } };

    ghost invariant = { λ o. AreEnds o.sent.items o.peers };
}

impl<J: Run> Outbox<J> {
    /// No senders, and nothing was sent. Takes no memory.
    pub fn new(alloc: Global) -> Self
        ensures { result ≡ record { peers = []; sent = [] } }
    {
        Outbox {
            peers: Peers::new(alloc),
            sent: SentList::new(),
        }
    }

    /// Whether there is a sender into the port of this instance.
    pub fn is_known(&self, number: u32) -> bool
        ensures { result ≡ is_known self.now.peers number }
    {
        self.peers.is_known(number)
    }

    /// Adds a sender into the port of this instance. That there was none, that it is of this port, and that it has put
    /// no signal, is the caller's condition. For lack of memory nothing changes.
    pub fn open(&mut self, number: u32, sender: Sender) -> Result<(), AllocError>
        requires unknown { is_known self.old.peers number ≡ false }
        requires port { sender.port ≡ J.ports number }
        requires fresh { put_by sender ≡ [] }
        ensures known { OnOk result (is_known self.new.peers number ≡ true) }
        ensures sent { self.new.sent ≡ self.old.sent }
    {
        match self.peers.open(number, sender) {
            Ok(()) => Ok(()),
            Err(_) => Err(AllocError),
        }
    }

    /// Sends a signal: puts it into the port of this instance, if there is a sender into it. If there is none, for lack
    /// of memory, and after 2^61 entries, it comes back, and nothing changes. That it's this port is the caller's
    /// condition.
    #[inline(always)]
    pub fn put<R: Wait>(
        &mut self,
        rt: &R,
        port: &Port,
        number: u32,
        item: Item,
    ) -> Result<(), NotPut>
        requires port { port.now.queue ≡ J.ports number }
        ensures sent { MatchResult result (λ _. self.new.sent ≡ self.old.sent ++ (number, item) ∷ [])
            (λ _. self.new ≡ self.old) }
        ensures back { IfErr result (λ back. GivesBack back item number self.old.peers) }
    {
        let sent = self.sent.and(&number, &item);
        self.peers.put(rt, port, number, item)?;
        self.sent = sent;
        Ok(())
    }

    /// Sends a signal to an instance that is not there: it is gone. That there is no sender into its port is the
    /// caller's condition.
    pub fn lose(&mut self, number: u32, item: Item)
        requires unknown { is_known self.old.peers number ≡ false }
        ensures sent { self.new.sent ≡ self.old.sent ++ (number, item) ∷ [] }
        ensures peers { self.new.peers ≡ self.old.peers }
    {
        self.sent = self.sent.and(&number, &item);
    }

    /// Puts the expiry of a timer into the port of this instance, at the time `at`. That its time has come, that there
    /// is a sender, and that it's this port, is the caller's condition. For lack of memory the fuse comes back.
    pub fn expire<R: Wait>(
        &mut self,
        rt: &R,
        port: &Port,
        number: u32,
        fuse: Fuse,
        at: Ticks,
    ) -> Result<(), Fuse>
        requires known { is_known self.old.peers number ≡ true }
        requires port { port.now.queue ≡ J.ports number }
        requires due { fuse.due ≤ at }
        ensures sent { self.new.sent ≡ self.old.sent }
        ensures put { MatchResult result (λ _. PutsTo number at (Timer fuse) self.old.peers self.new.peers)
            (λ back. (back ≡ fuse) × (self.new.peers ≡ self.old.peers)) }
    {
        match self.peers.expire(rt, port, number, fuse, at) {
            Ok(()) => Ok(()),
            Err(Refused { value, .. }) => Err(value),
        }
    }

    /// The senders. What they have put is the end of what was sent.
    pub fn into_peers(self) -> Peers<J>
        ensures peers { result ≡ self.peers }
        ensures ends { AreEnds self.sent result }
    {
        self.peers
    }

    /// That what was put is the end of what was sent, as a fact.
    pub fn ends(&self)
        ensures { AreEnds self.now.sent self.now.peers }
    {
        let _peers = &self.peers;
    }
}
