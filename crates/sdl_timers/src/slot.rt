//! The fuses of one slot of a wheel.

ghost use Rattle.std.specs.Prelude.{◌≡◌, [], ◌∷◌, filter, length, not, IfErr, MatchOption, OnErr, OnOk};
ghost use Rattle.sdl_timers.specs.DueOrder.{first_of, with_fuse};

use crate::due::Due;
use crate::spent::SpentFuses;
use crate::turn::Turn;
use port_model::{Fuse, PortError, Refused};
use std::alloc::Global;
use std::collections::BTreeMap;
use std::marker::Model;

/// The fuses of one slot, in due order. Arming a fuse and taking the first cost the logarithm of their number.
#[derive(Drop)]
pub struct Slot {
    fuses: BTreeMap<Turn, Fuse>,
    /// How many fuses were armed here, which is the number of the next one's turn.
    armed: u64,
}

impl Model for Slot {
    ghost use Rattle.std.specs.BTreeMap.{values};
    ghost use Rattle.sdl_timers.specs.Fuses.{FuseList};
    ghost use Rattle.sdl_timers.specs.Turns.{HaveTheirTurns};

    ghost Value = { FuseList };

    ghost view = { λ slot. values slot.fuses };

    ghost invariant = { λ slot. HaveTheirTurns slot.armed slot.fuses.entries };
}

impl Slot {
    pub fn new(alloc: Global) -> Self
        ensures { result ≡ [] }
    {
        Slot {
            fuses: BTreeMap::new(alloc),
            armed: 0,
        }
    }

    pub fn len(&self) -> usize
        ensures { result ≡ length self.now }
    {
        self.fuses.len()
    }

    /// Where the first fuse stands in due order.
    pub fn first(&self) -> Option<Due>
        ensures { result ≡ first_of self.now }
    {
        match self.fuses.first_key_value() {
            Some((turn, _)) => Some(turn.due),
            None => None,
        }
    }

    /// Puts a fuse behind all that it isn't due before. For lack of memory it comes back, and so it does where 2^64 - 1
    /// fuses were armed here before it; nothing changes then.
    pub fn arm(&mut self, fuse: Fuse) -> Result<(), Refused<Fuse>>
        ensures ok { OnOk result (self.new ≡ with_fuse fuse self.old) }
        ensures err { OnErr result (self.new ≡ self.old) }
        ensures handed_back { IfErr result (λ refused. refused.value ≡ fuse) }
        ensures memory { IfErr result (λ refused. refused.error ≡ PortError.Memory) }
    {
        // Two fuses of the same due keep the order in which they were armed, by a count of 64 bits. The fuse after the
        // last count is refused, as for lack of memory.
        let Some(armed) = self.armed.checked_add(1) else {
            return Err(out_of_memory(fuse));
        };
        let turn = Turn {
            due: Due::of(&fuse),
            number: self.armed,
        };
        if let Err(refused) = self.fuses.insert(turn, fuse) {
            return Err(out_of_memory(refused.value.1));
        }
        self.armed = armed;
        Ok(())
    }

    /// Takes the first fuse out. The others stay where they are.
    pub fn take_first(&mut self) -> Option<Fuse>
        ensures { MatchOption result ((self.old ≡ []) × (self.new ≡ [])) (λ fuse. self.old ≡ fuse ∷ self.new) }
    {
        match self.fuses.pop_first() {
            Some((_, fuse)) => Some(fuse),
            None => None,
        }
    }

    /// Takes out those fuses that are spent. The others stay where they are. Takes no memory.
    pub fn thin<S: SpentFuses>(&mut self, known: &S)
        ensures { self.new ≡ filter (λ fuse. not (S.spent known.now fuse)) self.old }
    {
        self.fuses.retain(|_, fuse| !known.is_spent(fuse));
    }
}

fn out_of_memory(fuse: Fuse) -> Refused<Fuse>
    ensures { result ≡ record { error = PortError.Memory; value = fuse } }
{
    Refused {
        error: PortError::Memory,
        value: fuse,
    }
}
