//! What puts signals and expiries into a port.

ghost use Rattle.std.specs.Prelude.{◌≡◌, ◌+◌, ◌≤◌, ◌^◌, [], true, None, MatchResult};
ghost use Rattle.input_port.specs.QueueWords.{sender, sent_by, signals_by, IsDueBy, IsOfSender, IsSegPassOf, PutIs, Puts, Signal, Timer};

use crate::queue::refused::refused;
use crate::queue::rule::Pass;
use crate::queue::shared::Port;
use crate::queue::steps;
use port_model::{Entry, Fuse, Item, Placed, PutCount, Refused, SenderNumber, Ticks};
use std::marker::Model;
use std::sync::Wait;

/// How many entries a sender puts at most.
const MOST_PUTS: u64 = 1 << 61;

/// The number of a sender, how many entries it has put, and how many of them are signals.
#[derive(Clone, Copy)]
pub struct Tally {
    pub number: SenderNumber,
    pub count: u64,
    pub signals: u64,
}

/// A sender of a port. It puts signals and expiries into it, from any thread.
#[derive(Drop)]
pub struct Sender {
    pass: Pass,
    number: SenderNumber,
    count: u64,
    signals: u64,
}

impl Model for Sender {
    ghost use Rattle.std.specs.Prelude.{◌≡◌, None};
    ghost use Rattle.input_port.specs.QueueEnds.{SenderState, IsOfSender};

    ghost Value = { SenderState };

    ghost view = { λ s. record {
      port = record { web = s.pass.web; heap = s.pass.heap };
      number = s.number;
      seen = s.pass.me.view.client.seen;
    } };

    ghost invariant = { λ s. IsOfSender s.pass.me.view.client s.number s.count s.signals × (s.pass.me.hand ≡ None)
        × (s.pass.me.spare ≡ None) };
}

impl Sender {
    pub(crate) fn new(pass: Pass, number: SenderNumber) -> Self
        requires view { pass.me.view.client ≡ sender number 0 [] }
        requires free { (pass.me.hand ≡ None) × (pass.me.spare ≡ None) }
        ensures { result ≡ record { port = record { web = pass.web; heap = pass.heap }; number = number; seen = [] } }
    {
        Sender {
            pass,
            number,
            count: 0,
            signals: 0,
        }
    }

    /// The number of this sender, from 1. No other sender of the port has it.
    pub fn number(&self) -> SenderNumber
        ensures { result ≡ self.now.number }
    {
        self.number
    }

    /// How many of the entries that it has put are signals.
    pub fn sent(&self) -> u64
        ensures { result ≡ signals_by self.now }
    {
        self.signals
    }

    /// Puts a signal behind all that this sender has seen. For lack of memory, and after 2^61 entries, it comes back.
    /// That the port is the sender's is the caller's condition.
    #[inline(always)]
    pub fn put<R: Wait>(&mut self, rt: &R, port: &Port, item: Item) -> Result<(), Refused<Item>>
        requires { self.old.port ≡ port.now.queue }
        ensures port { self.new.port ≡ self.old.port }
        ensures put { PutIs self.old self.new 0 (Signal item) item result }
    {
        match self.push(rt, port, Ticks::new(0), Entry::Signal(item)) {
            Ok(()) => Ok(()),
            Err(Entry::Signal(value)) => Err(refused(value)),
            Err(Entry::Timer(_)) => unreachable!(),
        }
    }

    /// Puts the expiry of a timer, at the time `at`, as `put` does a signal. That its time has come is the caller's
    /// condition.
    pub fn expire<R: Wait>(
        &mut self,
        rt: &R,
        port: &Port,
        fuse: Fuse,
        at: Ticks,
    ) -> Result<(), Refused<Fuse>>
        requires port { self.old.port ≡ port.now.queue }
        requires due { fuse.due ≤ at }
        ensures port { self.new.port ≡ self.old.port }
        ensures put { PutIs self.old self.new at (Timer fuse) fuse result }
    {
        match self.push(rt, port, at, Entry::Timer(fuse)) {
            Ok(()) => Ok(()),
            Err(Entry::Timer(value)) => Err(refused(value)),
            Err(Entry::Signal(_)) => unreachable!(),
        }
    }

    /// The sender's number and counts, which `again` needs beside the pass.
    pub(crate) fn tally(&self) -> Tally
        ensures number { result.number ≡ self.now.number }
        ensures count { result.count ≡ sent_by self.now }
        ensures signals { result.signals ≡ signals_by self.now }
        ensures few { result.signals ≤ result.count }
        ensures below { result.count ≤ 2 ^ 61 }
    {
        Tally {
            number: self.number,
            count: self.count,
            signals: self.signals,
        }
    }

    /// The pass alone, which the owner takes in.
    pub(crate) fn into_pass(self) -> Pass
        ensures pass { IsSegPassOf self.port result }
        ensures view { (result.me.view.client.sends ≡ true) × (result.me.view.client.number ≡ self.number)
            × (result.me.view.client.seen ≡ self.seen) × (result.me.view.client.count ≡ sent_by self) }
    {
        let Sender { pass, .. } = self;
        pass
    }

    /// A sender that the owner gives back.
    pub(crate) fn again(pass: Pass, tally: Tally) -> Self
        requires view { IsOfSender pass.me.view.client tally.number tally.count tally.signals }
        requires free { (pass.me.hand ≡ None) × (pass.me.spare ≡ None) }
        ensures { result ≡ record {
          port = record { web = pass.web; heap = pass.heap };
          number = tally.number;
          seen = pass.me.view.client.seen;
        } }
    {
        Sender {
            pass,
            number: tally.number,
            count: tally.count,
            signals: tally.signals,
        }
    }

    #[inline(always)]
    fn push<R: Wait>(&mut self, rt: &R, port: &Port, at: Ticks, entry: Entry) -> Result<(), Entry>
        requires port { self.old.port ≡ port.now.queue }
        requires timely { IsDueBy at entry }
        ensures port { self.new.port ≡ self.old.port }
        ensures put { MatchResult result (λ _. Puts self.old self.new at entry) (λ back. (back ≡ entry)
            × (self.new ≡ self.old)) }
    {
        if self.count >= MOST_PUTS {
            return Err(entry);
        }
        let signals = u64::from(entry.is_signal());
        let placed = Placed {
            number: self.number,
            count: PutCount::new(self.count + 1),
            at,
            entry,
        };
        match steps::push(rt, &port.queue, &mut self.pass, placed) {
            Ok(()) => {
                self.count += 1;
                self.signals += signals;
                Ok(())
            }
            Err(placed) => Err(placed.into_entry()),
        }
    }
}
