//! The owner of a shared port, with the port, as an inbox.
#![tactic(auto, using(crate::proofs::Keeping::kept))]

ghost use Rattle.std.specs.Prelude.{◌≡◌, [], true, length, not, All, IfSome};
ghost use Rattle.input_port.specs.Words.{due_times, signals_drawn, DrainIs, GatherHereIs, HasDrawnHere, IsKept, IsKnowing, IsLeast, IsTimely, LeaveIs};
ghost use Rattle.input_port.specs.Kept.{senders_of};

use crate::owner::Owner;
use crate::queue::refused::refused;
use crate::queue::{Finished, Port, Receiver, Sender};
use crate::since;
use port_model::{Entry, Fuse, Inbox, PortError, Refused, Selection, Taken, Ticks, TimerKey};
use std::marker::Model;
use std::sync::Wait;

/// The owner of a shared port, with the port and the handle by which it waits, as an inbox. It lives until `stop`.
/// It doesn't keep how many signals had been drawn at its stop. An inbox is asked for all signals drawn, at any moment,
/// and two such counts say whether any was drawn between them.
#[derive(Drop)]
pub struct Held<'a, R: Wait + Copy> {
    rt: R,
    port: &'a Port,
    receiver: Receiver,
    since: Vec<Entry>,
    stopped: bool,
}

impl<'a, R: Wait + Copy> Model for Held<'a, R> {
    ghost use Rattle.std.specs.Prelude.{◌≡◌, not};
    ghost use Rattle.input_port.specs.Ends.{HeldState};
    ghost use Rattle.input_port.specs.Held.{IsKept};

    ghost Value = { HeldState };

    ghost view = { λ h. record { owner = h.receiver; since = h.since.items } };

    ghost invariant = { λ h. (h.receiver.port ≡ h.port.now.queue) × (h.receiver.state.alive ≡ not h.stopped)
        × IsKept h.receiver };
}

impl<'a, R: Wait + Copy> Held<'a, R> {
    /// An inbox that was not stopped. That the port is the owner's is the caller's condition, and that no expiry that it
    /// has drawn came before its due time, as where it has drawn nothing.
    pub fn new(rt: R, port: &'a Port, owner: Owner) -> Self
        requires port { owner.port ≡ port.now.queue }
        requires timely { All IsTimely owner.drawn }
        ensures inbox { result ≡ record { owner = owner; since = [] } }
        ensures alive { result.owner.state.alive ≡ true }
    {
        let receiver = owner.into_receiver();
        let since = receiver.nothing_since();
        Held {
            rt,
            port,
            receiver,
            since,
            stopped: false,
        }
    }

    /// The same, which keeps the number of the sender of each entry that it draws, as far as there is memory for it.
    /// That the owner has drawn nothing is the caller's condition.
    pub fn keeping(rt: R, port: &'a Port, owner: Owner) -> Self
        requires port { owner.port ≡ port.now.queue }
        requires drawn { owner.drawn ≡ [] }
        ensures inbox { result ≡ record { owner = owner; since = [] } }
        ensures alive { result.owner.state.alive ≡ true }
    {
        let mut held = Held::new(rt, port, owner);
        held.receiver.keep_puts();
        held
    }

    /// How many entries have been drawn, before a stop and since. None: the numbers of their senders aren't kept.
    pub fn drawn(&self) -> Option<u32>
        ensures { IfSome result (λ count. count ≡ length self.now.owner.drawn) }
    {
        self.receiver.drawn()
    }

    /// Of each entry that was drawn the number of its sender, in the order in which they were drawn. None: the numbers
    /// aren't kept.
    pub fn into_puts(self) -> Option<Vec<u32>>
        ensures { IfSome result (λ puts. puts.items ≡ senders_of self.entry.owner.drawn) }
    {
        self.receiver.into_puts()
    }

    /// How many senders have been gathered and not handed back.
    pub fn gathered(&self) -> u64
        ensures { result ≡ length self.now.owner.gathered }
    {
        self.receiver.gathered()
    }

    /// How many signals have been drawn, before a stop and since.
    pub fn signals(&self) -> u64
        ensures { result ≡ signals_drawn self.now.owner }
    {
        self.receiver.signals()
    }

    /// How many entries wait that are drawn, before a stop and after it: then none does.
    pub fn waiting(&self) -> usize
        ensures { result ≡ length self.now.owner.state.waiting }
    {
        self.receiver.waiting()
    }

    /// Whether it was stopped.
    pub fn is_stopped(&self) -> bool
        ensures { result ≡ not self.now.owner.state.alive }
    {
        self.stopped
    }

    /// The least due time of a timer that is set and has not expired, before a stop and after it: then none is.
    pub fn least_due(&self) -> Option<Ticks>
        ensures { IsLeast (due_times self.now.owner.state.timers) result }
    {
        self.receiver.next_due()
    }

    /// Takes a sender in, before a stop and after it. For lack of memory the sender comes back. That the port is the
    /// sender's is the caller's condition.
    pub fn gather(&mut self, sender: Sender) -> Result<(), Refused<Sender>>
        requires { sender.port ≡ self.old.owner.port }
        ensures port { self.new.owner.port ≡ self.old.owner.port }
        ensures gather { GatherHereIs self.old self.new sender result }
    {
        if self.stopped {
            return since::gather(
                &mut self.receiver,
                &mut self.since,
                &self.rt,
                self.port,
                sender,
            );
        }
        self.receiver.gather(&self.rt, self.port, sender)
    }

    /// Draws all that stands in the port, up to a fresh point, before a stop and after it. For lack of memory it stops
    /// before.
    pub fn drain(&mut self) -> Result<(), PortError>
        ensures port { self.new.owner.port ≡ self.old.owner.port }
        ensures drawn { HasDrawnHere self.old self.new }
        ensures fresh { DrainIs self.new.owner result }
    {
        if self.stopped {
            return since::drain(&mut self.receiver, &mut self.since, &self.rt, self.port);
        }
        self.receiver.drain(&self.rt, self.port)
    }

    /// Shows what every owner knows, as a fact.
    pub fn knows(&self)
        ensures { IsKnowing self.now.owner }
    {
        self.receiver.knows();
    }

    /// That no expiry that it has drawn came before its due time, and that no timer is set after a stop, as a fact.
    pub fn is_kept(&self)
        ensures { IsKept self.now.owner }
    {
        let _receiver = &self.receiver;
    }

    /// Draws what stands in the port, and gives what is left: as `Owner::finish`, or after a stop as
    /// `Retired::finish`. For lack of memory the inbox comes back, and keeps what it has drawn.
    pub fn finish(mut self) -> Result<Finished, Refused<Self>>
        ensures { LeaveIs self.entry result }
    {
        if let Err(error) = self.drain() {
            return Err(Refused { error, value: self });
        }
        self.knows();
        if self.stopped {
            return Ok(self.receiver.leave(self.since));
        }
        match self.receiver.leave_waiting() {
            Ok(end) => Ok(end),
            Err(receiver) => {
                self.receiver = receiver;
                Err(refused(self))
            }
        }
    }
}

impl<'a, R: Wait + Copy> Inbox for Held<'a, R> {
    ghost use Rattle.std.specs.Prelude.{true};

    ghost owning = { λ h. h.owner };

    ghost since = { λ h. h.since };

    ghost shared = { true };

    #[inline(always)]
    fn take(&mut self, selection: &Selection) -> Result<Taken, PortError> {
        self.receiver.take(&self.rt, self.port, selection)
    }

    #[inline(always)]
    fn is_quiet(&mut self) -> bool {
        self.receiver.is_quiet(self.port)
    }

    fn set(&mut self, key: TimerKey, due: Ticks) -> Result<Fuse, PortError> {
        self.receiver.set(key, due)
    }

    fn reset(&mut self, key: &TimerKey) {
        self.receiver.reset(key);
    }

    fn active(&self, key: &TimerKey) -> bool {
        self.receiver.active(key)
    }

    fn next_due(&self) -> Option<Ticks> {
        self.receiver.next_due()
    }

    fn stop(&mut self) {
        self.receiver.stop();
        self.stopped = true;
    }
}
