//! The owner of a port: the instance, as long as it lives.
#![tactic(auto, using(crate::proofs::Drawing::alive))]

ghost use Rattle.std.specs.Prelude.{◌≡◌, ◌↔◌, [], true, None, length, IfErr, IfOk, IsErrOf};
ghost use Rattle.input_port.specs.Words.{after_reset, after_stop, due_times, is_active, left_with, newborn, owner, signals_drawn, AreWaiting, ComesBack, DrainIs, FinishIs, GatherIs, HasDrawn, IsKnowing, IsLeast, MeetIs, MOST_SETS, SetIs, TakeIs};

use crate::queue::refused::refused;
use crate::queue::{Finished, Pass, Port, Receiver, Sender};
use crate::retired::Retired;
use port_model::{Entry, Fuse, PortError, Refused, Selection, Taken, Ticks, TimerKey};
use std::alloc::Global;
use std::marker::Model;
use std::sync::Wait;

/// The one that takes from a port and has its timers: the instance. It lives; `stop` makes another type of it.
#[derive(Drop)]
pub struct Owner {
    receiver: Receiver,
}

impl Model for Owner {
    ghost use Rattle.std.specs.Prelude.{◌≡◌, true};
    ghost use Rattle.port_model.specs.Ends.{OwnerState};

    ghost Value = { OwnerState };

    ghost view = { λ o. o.receiver };

    ghost invariant = { λ o. o.receiver.state.alive ≡ true };
}

impl Owner {
    pub(crate) fn new(alloc: Global, pid: u32, pass: Pass) -> Self
        requires view { pass.me.view.client ≡ owner [] [] [] [] }
        requires free { (pass.me.hand ≡ None) × (pass.me.spare ≡ None) }
        ensures { result ≡ newborn (record { web = pass.web; heap = pass.heap }) pid }
    {
        Owner {
            receiver: Receiver::new(alloc, pid, pass),
        }
    }

    /// Gives its receiver, with which it lives on in an inbox.
    pub(crate) fn into_receiver(self) -> Receiver
        ensures owner { result ≡ self }
        ensures alive { result.state.alive ≡ true }
    {
        let Owner { receiver } = self;
        receiver
    }

    /// How many senders have been gathered and not handed back.
    pub fn gathered(&self) -> u64
        ensures { result ≡ length self.now.gathered }
    {
        self.receiver.gathered()
    }

    /// How many signals have been drawn.
    pub fn signals(&self) -> u64
        ensures { result ≡ signals_drawn self.now }
    {
        self.receiver.signals()
    }

    /// Takes from the port (Z.102, priority input, save): draws entries until the selection takes one, or until none
    /// is left. After `Nothing` all that the owner knows of is drawn. In a state with a priority input an entry of one
    /// that is drawn is taken at once; else everything is drawn first. For lack of memory nothing is taken, and what
    /// was drawn stays in the port. That it is the owner's port is the caller's condition.
    pub fn take<R: Wait>(
        &mut self,
        rt: &R,
        port: &Port,
        selection: &Selection,
    ) -> Result<Taken, PortError>
        requires { self.old.port ≡ port.now.queue }
        ensures port { self.new.port ≡ self.old.port }
        ensures alive { self.new.state.alive ≡ true }
        ensures knows { IsKnowing self.new }
        ensures take { TakeIs selection.now self.old self.new result }
    {
        let taken = self.receiver.take(rt, port, selection);
        self.receiver.knows();
        taken
    }

    /// Draws all that stands in the port, up to a fresh point: then all that the owner knows of is drawn. For lack of
    /// memory it stops before. That it is the owner's port is the caller's condition.
    pub fn drain<R: Wait>(&mut self, rt: &R, port: &Port) -> Result<(), PortError>
        requires { self.old.port ≡ port.now.queue }
        ensures port { self.new.port ≡ self.old.port }
        ensures alive { self.new.state.alive ≡ true }
        ensures knows { IsKnowing self.new }
        ensures drawn { HasDrawn self.old self.new }
        ensures fresh { DrainIs self.new result }
    {
        let drawn = self.receiver.drain(rt, port);
        self.receiver.knows();
        drawn
    }

    /// Takes a sender in: the owner then knows all that the sender had seen. For lack of memory the sender comes back.
    /// That the port is that of both is the caller's condition.
    pub fn gather<R: Wait>(
        &mut self,
        rt: &R,
        port: &Port,
        sender: Sender,
    ) -> Result<(), Refused<Sender>>
        requires owner { self.old.port ≡ port.now.queue }
        requires sender { sender.port ≡ port.now.queue }
        ensures port { self.new.port ≡ self.old.port }
        ensures alive { self.new.state.alive ≡ true }
        ensures knows { IsKnowing self.new }
        ensures gather { GatherIs self.old self.new sender result }
    {
        let gathered = self.receiver.gather(rt, port, sender);
        self.receiver.knows();
        gathered
    }

    /// Takes a sender in and gives it back: the owner then knows all that the sender had seen, and the sender has seen
    /// all that the owner knows. For lack of memory the sender comes back as it was. That the port is that of both is
    /// the caller's condition.
    pub fn meet<R: Wait>(
        &mut self,
        rt: &R,
        port: &Port,
        sender: Sender,
    ) -> Result<Sender, Refused<Sender>>
        requires owner { self.old.port ≡ port.now.queue }
        requires sender { sender.port ≡ port.now.queue }
        ensures port { self.new.port ≡ self.old.port }
        ensures alive { self.new.state.alive ≡ true }
        ensures knows { IsKnowing self.new }
        ensures meet { MeetIs self.old self.new sender result }
    {
        let met = self.receiver.meet(rt, port, sender);
        self.receiver.knows();
        met
    }

    /// Sets a timer for the time `due`, after a reset. Refused with `SetsSpent` after 2^62 sets, and for lack of
    /// memory; the key is dropped then, and nothing changes.
    pub fn set(&mut self, key: TimerKey, due: Ticks) -> Result<Fuse, PortError>
        ensures port { self.new.port ≡ self.old.port }
        ensures set { SetIs self.old self.new key due result }
        ensures spent { IsErrOf result PortError.SetsSpent ↔ (self.old.state.sets ≡ MOST_SETS) }
    {
        self.receiver.set(key, due)
    }

    /// Resets a timer: it isn't active any more, and its signal doesn't wait.
    pub fn reset(&mut self, key: &TimerKey)
        ensures { self.new ≡ after_reset self.old key.now }
    {
        self.receiver.reset(key);
    }

    /// Whether a timer is active.
    pub fn active(&self, key: &TimerKey) -> bool
        ensures { result ≡ is_active key.now self.now.state.timers }
    {
        self.receiver.active(key)
    }

    /// The least due time of a timer that is set and has not expired.
    pub fn next_due(&self) -> Option<Ticks>
        ensures { IsLeast (due_times self.now.state.timers) result }
    {
        self.receiver.next_due()
    }

    /// Ends the port (Z.101, stop): what waits is discarded, no timer is active, and later entries have no effect.
    /// There is no owner any more, and so no further take, set or reset. Takes no memory.
    pub fn stop(self) -> Retired
        ensures { result ≡ record { owner = after_stop self; since = []; before = signals_drawn self } }
    {
        let Owner { mut receiver } = self;
        let since = receiver.nothing_since();
        let before = receiver.signals();
        receiver.stop();
        Retired::new(receiver, since, before)
    }

    /// Gives all that waits in the port of the standard, in order: what was drawn and neither taken nor reset, each
    /// timer's signal with its fuse. For lack of memory the owner comes back as it was.
    pub fn into_entries(self) -> Result<Vec<Entry>, Refused<Owner>>
        ensures waiting { IfOk result (λ list. AreWaiting self.state.waiting self.pid self.armed list.items) }
        ensures back { IfErr result (λ back. ComesBack back self) }
    {
        Ok(self.leave_waiting()?.into_entries())
    }

    /// The end, with what waits in the port of the standard.
    fn leave_waiting(self) -> Result<Finished, Refused<Owner>>
        ensures left { IfOk result (λ end. end ≡ left_with self end.entries) }
        ensures waiting { IfOk result (λ end. AreWaiting self.state.waiting self.pid self.armed end.entries) }
        ensures back { IfErr result (λ back. ComesBack back self) }
    {
        let Owner { receiver } = self;
        match receiver.leave_waiting() {
            Ok(end) => Ok(end),
            Err(receiver) => Err(refused(Owner { receiver })),
        }
    }

    /// `drain`, and then `into_entries`: what was put and neither taken nor reset, in order. For lack of memory the
    /// owner comes back, with what it has drawn in its port. That the port is the owner's is the caller's condition.
    pub fn finish<R: Wait>(mut self, rt: &R, port: &Port) -> Result<Finished, Refused<Owner>>
        requires { self.port ≡ port.now.queue }
        ensures { FinishIs self result }
    {
        if let Err(error) = self.drain(rt, port) {
            return Err(Refused { error, value: self });
        }
        self.leave_waiting()
    }
}
