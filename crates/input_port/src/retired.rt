//! An owner after its stop.
ghost use Rattle.std.specs.Prelude.{◌≡◌, length, IfErr, IfOk, MatchResult};
ghost use Rattle.input_port.specs.Words.{signals_drawn, ComesBack, DrainIs, FinishesSince, GathersSince, HasDrawnSince, IsKnowing};

use crate::queue::{Finished, Port, Receiver, Sender};
use crate::since;
use port_model::{Entry, PortError, Refused};
use std::marker::Model;
use std::sync::Wait;

/// An owner after its stop, which takes nothing more. What is put from then on has no effect, and is handed out by
/// `finish`.
#[derive(Drop)]
pub struct Retired {
    receiver: Receiver,
    since: Vec<Entry>,
    before: u64,
}

impl Model for Retired {
    ghost use Rattle.input_port.specs.Ends.{RetiredState};

    ghost Value = { RetiredState };

    ghost view = { λ r. record { owner = r.receiver; since = r.since.items; before = r.before } };
}

impl Retired {
    pub(crate) fn new(receiver: Receiver, since: Vec<Entry>, before: u64) -> Self
        ensures { result ≡ record { owner = receiver; since = since.items; before = before } }
    {
        Retired {
            receiver,
            since,
            before,
        }
    }

    /// How many senders have been gathered and not handed back.
    pub fn gathered(&self) -> u64
        ensures { result ≡ length self.now.owner.gathered }
    {
        self.receiver.gathered()
    }

    /// How many signals have been drawn, before the stop and since.
    pub fn signals(&self) -> u64
        ensures { result ≡ signals_drawn self.now.owner }
    {
        self.receiver.signals()
    }

    /// How many signals had been drawn when it stopped.
    pub fn drawn(&self) -> u64
        ensures { result ≡ self.now.before }
    {
        self.before
    }

    /// Takes a sender in, as `Owner::gather` does. For lack of memory the sender comes back. That the port is that of
    /// both is the caller's condition.
    pub fn gather<R: Wait>(
        &mut self,
        rt: &R,
        port: &Port,
        sender: Sender,
    ) -> Result<(), Refused<Sender>>
        requires owner { self.old.owner.port ≡ port.now.queue }
        requires sender { sender.port ≡ port.now.queue }
        ensures port { self.new.owner.port ≡ self.old.owner.port }
        ensures knows { IsKnowing self.new.owner }
        ensures before { self.new.before ≡ self.old.before }
        ensures gather { MatchResult result
            (λ _. GathersSince self.old.owner self.new.owner self.old.since self.new.since sender)
            (λ back. ComesBack back sender × (self.new ≡ self.old)) }
    {
        let gathered = since::gather(&mut self.receiver, &mut self.since, rt, port, sender);
        self.receiver.knows();
        gathered
    }

    /// Draws all that stands in the port, up to a fresh point, and keeps it. For lack of memory it stops before. That
    /// the port is the owner's is the caller's condition.
    pub fn drain<R: Wait>(&mut self, rt: &R, port: &Port) -> Result<(), PortError>
        requires { self.old.owner.port ≡ port.now.queue }
        ensures port { self.new.owner.port ≡ self.old.owner.port }
        ensures knows { IsKnowing self.new.owner }
        ensures before { self.new.before ≡ self.old.before }
        ensures drawn { HasDrawnSince self.old.owner self.new.owner self.old.since self.new.since }
        ensures fresh { DrainIs self.new.owner result }
    {
        let drawn = since::drain(&mut self.receiver, &mut self.since, rt, port);
        self.receiver.knows();
        drawn
    }

    /// The entries drawn since the stop, in order. Takes no memory.
    pub fn into_entries(self) -> Vec<Entry>
        ensures { result.items ≡ self.since }
    {
        self.since
    }

    /// `drain`, and then `into_entries`: what was put and not drawn before the stop, in order. For lack of memory the
    /// value comes back, and keeps what it has drawn. That the port is the owner's is the caller's condition.
    pub fn finish<R: Wait>(mut self, rt: &R, port: &Port) -> Result<Finished, Refused<Retired>>
        requires { self.owner.port ≡ port.now.queue }
        ensures ok { IfOk result (FinishesSince self.owner self.since) }
        ensures err { IfErr result (λ back. back.error ≡ PortError.Memory) }
        ensures drawn { IfErr result (λ back. HasDrawnSince self.owner back.value.owner self.since back.value.since) }
        ensures before { IfErr result (λ back. back.value.before ≡ self.before) }
    {
        if let Err(error) = self.drain(rt, port) {
            return Err(Refused { error, value: self });
        }
        let Retired {
            receiver,
            since,
            ..
        } = self;
        Ok(receiver.leave(since))
    }
}
