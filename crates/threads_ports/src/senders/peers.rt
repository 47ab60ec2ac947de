//! The senders of an instance, or of the environment.

ghost use Rattle.std.specs.Map.{keys_of};
ghost use Rattle.std.specs.Prelude.{◌≡◌, ◌==◌, ◌≤◌, ◌++◌, ◌∷◌, [], ℕ, List, None, Some, false, length, slice_get, true, if◌then◌else◌, IfOk, IfSome, MatchOption, MatchResult, OnOk};
ghost use Rattle.port_model.specs.Calls.{ComesBack};
ghost use Rattle.port_model.specs.declared.inbox.entry.Entry.TheVariants.{Signal, Timer};
ghost use Rattle.port_model.specs.declared.values.pid.Pid.{Pid};
ghost use Rattle.port_model.specs.declared.values.pid.Pid.TheVariants.{Of};
ghost use Rattle.threads_ports.specs.Peers.{is_known, put_by, put_to, senders_into, sender_to, with_signal, GivesBack, PutsTo};
ghost use Rattle.threads_ports.specs.Peers.{AreLast, ArePeers, ArePeersOf};
ghost use Rattle.run_semantics.specs.Sent.{output_of};
ghost use Rattle.run_semantics.specs.World.{Sent};
ghost use Rattle.run_record.specs.Event.{Event};
ghost use Rattle.sdl_system.specs.declared.route.Dest.{Dest};

use crate::senders::{NotPut, Peer, Run};
use indexmap::IndexMap;
use input_port::{Port, Sender};
use port_model::{Fuse, Item, PortError, Refused, SenderInto, Ticks};
use std::alloc::{AllocError, AllocFailed, Global};
use std::marker::{Model, PhantomData};
use std::sync::Wait;

/// The senders of an instance, or of the environment, each with the number of the instance into whose port it puts.
/// Most instances send the next signal where they sent the last, so the place of its sender is looked at first.
#[derive(Drop)]
pub struct Peers<J: Run> {
    senders: IndexMap<u32, Sender>,
    last: usize,
    of: PhantomData<J>,
}

impl<J: Run> Model for Peers<J> {
    ghost use Rattle.threads_ports.specs.Peers.{AreNamed, PeersState};

    ghost Value = { PeersState };

    ghost view = { λ peers. peers.senders.entries };

    ghost invariant = { λ peers. AreNamed J.ports peers.senders.entries };
}

impl<J: Run> Peers<J> {
    /// No senders. Takes no memory.
    pub fn new(alloc: Global) -> Self
        ensures { result ≡ [] }
    {
        Peers {
            senders: IndexMap::new(alloc),
            last: 0,
            of: PhantomData,
        }
    }

    /// Whether there is a sender into the port of this instance.
    pub fn is_known(&self, number: u32) -> bool
        ensures { result ≡ is_known self.now number }
    {
        self.senders.contains_key(&number)
    }

    /// How many signals were put into the port of this instance.
    pub fn sent(&self, number: u32) -> u64
        ensures { result ≡ length (put_to self.now number) }
    {
        match self.senders.get(&number) {
            None => 0,
            Some(sender) => sender.sent(),
        }
    }

    /// Into which ports the senders put, and which number each has there, in the order in which they came.
    pub fn senders_into(&self, alloc: Global) -> Result<Vec<SenderInto>, AllocError>
        ensures { IfOk result (λ list. list.items ≡ senders_into self.now) }
    {
        let mut list = Vec::with_capacity(alloc, self.senders.len())?;
        for place in 0..self.senders.len() {
            let Some((port, sender)) = self.senders.get_index(place) else {
                unreachable!()
            };
            list.push(SenderInto {
                port: *port,
                number: sender.number().get(),
            })?;
        }
        Ok(list)
    }

    /// Adds a sender into the port of this instance. For lack of memory it comes back. That there was none, that it
    /// is of this port, and that it has put no signal, is the caller's condition.
    pub fn open(&mut self, number: u32, sender: Sender) -> Result<(), Refused<Sender>>
        requires unknown { is_known self.old number ≡ false }
        requires port { sender.port ≡ J.ports number }
        requires fresh { put_by sender ≡ [] }
        ensures opened { MatchResult result (λ _. self.new ≡ self.old ++ (number, sender) ∷ [])
            (λ back. ComesBack back sender × (self.new ≡ self.old)) }
        ensures known { OnOk result (is_known self.new number ≡ true) }
        ensures kept { (origin : Pid) (sends : Sent) → ArePeers origin sends self.old → ArePeers origin sends self.new }
    {
        match self.senders.insert(number, sender) {
            Ok(_) => Ok(()),
            Err(AllocFailed { value: (_, value) }) => Err(Refused {
                error: PortError::Memory,
                value,
            }),
        }
    }

    /// Puts a signal into the port of this instance, if there is a sender into it. If there is none, for lack of memory,
    /// and after 2^61 entries, it comes back, and nothing changes. That it's this port is the caller's condition.
    ///
    /// Where what was put so far is the last of what an origin sends, and the signal is of that origin, it is so with
    /// the signal after all that it sent: of an instance, with its output after the record.
    #[inline(always)]
    pub fn put<R: Wait>(
        &mut self,
        rt: &R,
        port: &Port,
        number: u32,
        item: Item,
    ) -> Result<(), NotPut>
        requires port { port.now.queue ≡ J.ports number }
        ensures put { MatchResult result (λ _. PutsTo number 0 (Signal item) self.old self.new)
            (λ back. GivesBack back item number self.old × (self.new ≡ self.old)) }
        ensures known { (n : ℕ) → is_known self.new n ≡ is_known self.old n }
        ensures kept { OnOk result ((origin : Pid) (sends : Sent) → item.sender ≡ origin
            → ArePeers origin sends self.old → ArePeers origin (with_signal sends number item) self.new) }
        ensures recorded { OnOk result ((who : ℕ) (events : List Event) (named : Dest) → item.sender ≡ Of who
            → ArePeersOf who events self.old
            → ArePeersOf who (events ++ output_of item named number ∷ []) self.new) }
    {
        let Some(place) = self.place_of(number) else {
            return Err(NotPut::Unknown(item));
        };
        self.last = place;
        let Some(sender) = self.senders.get_index_mut(place) else {
            unreachable!()
        };
        if let Err(Refused { value, .. }) = sender.put(rt, port, item) {
            return Err(NotPut::Memory(value));
        }
        Ok(())
    }

    /// The place of the sender into the port of this instance. None: there is none.
    #[inline(always)]
    #[tactic(auto, using(crate::proofs::PlaceLemmas::found_at))]
    fn place_of(&self, number: u32) -> Option<usize>
        ensures { MatchOption result (is_known self.now number ≡ false)
            (λ place. slice_get (keys_of self.now) place ≡ Some number) }
    {
        if self.is_at(self.last, number) {
            return Some(self.last);
        }
        self.senders.get_index_of(&number)
    }

    /// Whether the sender into the port of this instance is at this place.
    #[inline(always)]
    fn is_at(&self, place: usize, number: u32) -> bool
        ensures { result ≡ true → slice_get (keys_of self.now) place ≡ Some number }
    {
        match self.senders.get_index(place) {
            Some((known, _)) => *known == number,
            None => false,
        }
    }

    /// Puts the expiry of a timer into the port of this instance, at the time `at`. For lack of memory, and after 2^61
    /// entries, it comes back. That there is a sender, that it's this port, and that its time has come, is the caller's
    /// condition.
    pub fn expire<R: Wait>(
        &mut self,
        rt: &R,
        port: &Port,
        number: u32,
        fuse: Fuse,
        at: Ticks,
    ) -> Result<(), Refused<Fuse>>
        requires known { is_known self.old number ≡ true }
        requires port { port.now.queue ≡ J.ports number }
        requires due { fuse.due ≤ at }
        ensures put { MatchResult result (λ _. PutsTo number at (Timer fuse) self.old self.new)
            (λ back. ComesBack back fuse × (self.new ≡ self.old)) }
        ensures known { (n : ℕ) → is_known self.new n ≡ is_known self.old n }
        ensures kept { (origin : Pid) (sends : Sent) → ArePeers origin sends self.old → ArePeers origin sends self.new }
    {
        let Some(sender) = self.senders.get_mut(&number) else {
            unreachable!()
        };
        sender.expire(rt, port, fuse, at)
    }

    /// Takes out the sender into the port of this instance, to be gathered there. None: there is none.
    pub fn take(&mut self, number: u32) -> Option<Sender>
        ensures taken { result ≡ sender_to self.old number }
        ensures others { (n : ℕ) → sender_to self.new n ≡ (if number == n then None else sender_to self.old n) }
        ensures port { IfSome result (λ sender. sender.port ≡ J.ports number) }
        ensures last { (origin : Pid) (sends : Sent) → ArePeers origin sends self.old
            → IfSome result (λ sender. AreLast origin (sends number) (put_by sender)) }
        ensures kept { (origin : Pid) (sends : Sent) → ArePeers origin sends self.old → ArePeers origin sends self.new }
    {
        self.senders.swap_remove(&number)
    }

    /// Takes out the sender that came last, with its number, to be gathered at its port. None: there is none.
    pub fn release(&mut self) -> Option<Peer>
        ensures released { MatchOption result ((self.old ≡ []) × (self.new ≡ []))
            (λ peer. self.old ≡ self.new ++ (peer.number, peer.sender) ∷ []) }
        ensures port { IfSome result (λ peer. peer.sender.port ≡ J.ports peer.number) }
        ensures last { (origin : Pid) (sends : Sent) → ArePeers origin sends self.old
            → IfSome result (λ peer. AreLast origin (sends peer.number) (put_by peer.sender)) }
        ensures kept { (origin : Pid) (sends : Sent) → ArePeers origin sends self.old → ArePeers origin sends self.new }
    {
        let (number, sender) = self.senders.pop()?;
        Some(Peer { number, sender })
    }
}
