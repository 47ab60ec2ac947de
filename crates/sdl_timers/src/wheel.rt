//! The timers that are set, in due order.

ghost use Rattle.std.specs.Prelude.{◌≡◌, ◌%◌, [], nat_eq, count_by, map, All, IfErr, IfSome, OnErr, OnOk, false};
ghost use Rattle.port_model.specs.Timers.{IsLeast};
ghost use Rattle.sdl_timers.specs.DueOrder.{is_before, with_fuse, Fires};
ghost use Rattle.sdl_timers.specs.Thinned.{Thins};

use crate::due::Due;
use crate::slot::Slot;
use crate::spent::SpentFuses;
use crate::tournament::Tournament;
use port_model::{Fuse, PortError, Refused, Ticks};
use std::alloc::Global;
use std::array;
use std::marker::Model;

/// So many fuses are few.
const FEW: usize = 1024;

/// The fuses of the timers that are set. A fuse waits in the slot `due mod 256`, in due order among the others there,
/// and a tournament of the slots' first fuses tells which of all fuses is due first.
#[derive(Drop)]
pub struct Wheel {
    slots: [Slot; 256],
    tournament: Tournament,
    /// How many fuses wait.
    held: usize,
    /// With more fuses than this the wheel is crowded.
    bound: usize,
}

impl Model for Wheel {
    ghost use Rattle.sdl_timers.specs.Fuses.{FuseList};
    ghost use Rattle.sdl_timers.specs.Slots.{all_fuses, IsWheel};

    ghost Value = { FuseList };

    ghost view = { λ wheel. all_fuses wheel.slots };

    ghost invariant = { λ wheel. IsWheel wheel.slots wheel.tournament };
}

impl Wheel {
    /// A wheel with no fuse. Takes no memory.
    pub fn new(alloc: Global) -> Self
        ensures { result ≡ [] }
    {
        Wheel {
            slots: array::from_fn(|_| Slot::new(alloc)),
            tournament: Tournament::new(),
            held: 0,
            bound: FEW,
        }
    }

    /// Arms a fuse: it waits behind all that it isn't due before. For lack of memory the fuse comes back, and so it
    /// does where 2^64 - 1 fuses were armed in its slot before it; nothing changes then.
    pub fn arm(&mut self, fuse: Fuse) -> Result<(), Refused<Fuse>>
        ensures ok { OnOk result (self.new ≡ with_fuse fuse self.old) }
        ensures err { OnErr result (self.new ≡ self.old) }
        ensures handed_back { IfErr result (λ refused. refused.value ≡ fuse) }
        ensures memory { IfErr result (λ refused. refused.error ≡ PortError.Memory) }
    {
        let slot = Due::of(&fuse).slot();
        let waiting = &mut self.slots[usize::from(slot)];
        waiting.arm(fuse)?;
        let first = waiting.first();
        self.held = self.held.saturating_add(1);
        self.tournament.set(slot, first);
        Ok(())
    }

    /// Takes spent fuses out, if there are more than a few fuses, and more than twice as many as were left the last
    /// time. The others stay in their order. Takes no memory.
    ///
    /// The contract doesn't say whether the wheel is crowded: a spent fuse that stays has no effect, and costs memory.
    pub fn thin<S: SpentFuses>(&mut self, known: &S)
        ensures { Thins (S.spent known.now) self.old self.new }
    {
        if self.is_crowded() {
            for slot in 0..=u8::MAX {
                self.thin_slot(slot, known);
            }
            self.set_bound();
        }
    }

    /// Whether there are more than a few fuses, and more than twice as many as were left when the wheel was thinned
    /// last. Which fuses there are doesn't depend on it.
    fn is_crowded(&self) -> bool {
        self.held > self.bound
    }

    /// Takes the spent fuses out of one slot.
    fn thin_slot<S: SpentFuses>(&mut self, slot: u8, known: &S)
        ensures { Thins (S.spent known.now) self.old self.new }
    {
        if self.slot_len(slot) == 0 {
            return;
        }
        let waiting = &mut self.slots[usize::from(slot)];
        let had = waiting.len();
        waiting.thin(known);
        let gone = had.saturating_sub(waiting.len());
        let next = waiting.first();
        self.held = self.held.saturating_sub(gone);
        self.tournament.set(slot, next);
    }

    /// From now on the wheel is crowded with more than twice as many fuses as wait now, and more than a few.
    fn set_bound(&mut self)
        ensures { self.new ≡ self.old }
    {
        self.bound = self.held.saturating_mul(2).max(FEW);
    }

    /// The least time at which a fuse is due. Takes no memory.
    pub fn next_due(&self) -> Option<Ticks>
        ensures { IsLeast (map (λ fuse. fuse.due) self.now) result }
    {
        match self.tournament.least() {
            Some(due) => Some(due.time),
            None => None,
        }
    }

    /// Takes out the first fuse in due order, where its time is `to` or before. Takes no memory.
    pub fn fire(&mut self, to: Ticks) -> Option<Fuse>
        ensures fires { Fires self.old to result self.new }
        ensures first { IfSome result (λ fuse. All (λ other. is_before other fuse ≡ false) self.old) }
    {
        let due = self.tournament.least()?;
        if to < due.time {
            return None;
        }
        let slot = due.slot();
        let waiting = &mut self.slots[usize::from(slot)];
        let fuse = waiting.take_first();
        let first = waiting.first();
        self.held = self.held.saturating_sub(1);
        self.tournament.set(slot, first);
        fuse
    }

    /// How many fuses have a time with the remainder `slot` by 256.
    pub fn slot_len(&self, slot: u8) -> usize
        ensures { result ≡ count_by (λ fuse. nat_eq (fuse.due % 256) slot) self.now }
    {
        self.slots[usize::from(slot)].len()
    }
}
