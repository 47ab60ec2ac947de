//! The entries that a port has passed over since nobody wanted them then. Each is found by its name and, if it is a
//! timer's signal, by its timer: so none is passed over twice, whatever is wanted later.
ghost use Rattle.std.specs.Prelude.{◌≡◌, ◌==◌, ◌++◌, ◌∷◌, [], false, true, is_some, length, All, IfSome, MatchOption, MatchResult};
ghost use Rattle.port_model.specs.Backlog.{Leaves};
ghost use Rattle.port_model.specs.Passed.{entry_at, AreBefore, gots_in, holds_signal_of, Loses};
ghost use Rattle.port_model.specs.Timers.{without_signal};
ghost use Rattle.port_model.specs.Wanted.{IsUnwanted, IsWanted};

use crate::got::Got;
use crate::places::Places;
use crate::selection::Selection;
use crate::values::TimerKey;
use crate::wanted::Wanted;
use std::alloc::Global;
use std::collections::BTreeMap;
use std::marker::Model;

/// Entries that were passed over, in the order in which they came: by their places, which rise. Each call takes a time
/// that is logarithmic in their number.
#[derive(Drop)]
pub struct Passed {
    entries: BTreeMap<u64, Got>,
    places: Places,
}

impl Model for Passed {
    ghost use Rattle.std.specs.Prelude.{List};
    ghost use Rattle.port_model.specs.Passed.{IsPassed, Standing};

    ghost Value = { List Standing };

    ghost view = { λ p. p.entries.entries };

    ghost invariant = { λ p. IsPassed p.entries.entries p.places };
}

impl Passed {
    /// Nothing was passed over. Takes no memory.
    pub fn new(alloc: Global) -> Self
        ensures { result ≡ [] }
    {
        Passed {
            entries: BTreeMap::new(alloc),
            places: Places::new(alloc),
        }
    }

    /// How many entries were passed over.
    pub fn len(&self) -> usize
        ensures { result ≡ length self.now }
    {
        self.entries.len()
    }

    /// Whether none was.
    pub fn is_empty(&self) -> bool
        ensures { result ≡ (length self.now == 0) }
    {
        self.entries.len() == 0
    }

    /// Passes over an entry, which goes behind all others. For lack of memory it comes back; and if another signal of
    /// its timer is among the others.
    pub fn push(&mut self, got: Got) -> Result<(), Got>
        ensures { MatchResult result (λ _. gots_in self.new ≡ gots_in self.old ++ got ∷ [])
            (λ back. (back ≡ got) × (self.new ≡ self.old)) }
    {
        let Some(place) = self.next_place() else {
            return Err(got);
        };
        if !self.places.note(&got, place) {
            return Err(got);
        }
        let Err(refused) = self.entries.insert(place, got) else {
            return Ok(());
        };
        let (_, got) = refused.value;
        self.places.forget(&got, place);
        Err(got)
    }

    /// The place behind all others.
    fn next_place(&self) -> Option<u64>
        ensures { IfSome result (λ place. AreBefore place self.now) }
    {
        let Some((last, _)) = self.entries.last_key_value() else {
            return Some(0);
        };
        if *last == u64::MAX {
            return None;
        }
        Some(*last + 1)
    }

    /// Takes the first entry that is wanted out, if there is one. Needs no memory.
    pub fn take_first(&mut self, wanted: Wanted, selection: &Selection) -> Option<Got>
        ensures { MatchOption result ((self.new ≡ self.old) × All (IsUnwanted wanted selection.now) (gots_in self.new))
            (λ got. Leaves (IsUnwanted wanted selection.now) (gots_in self.old) got (gots_in self.new)
            × IsWanted wanted selection.now got) }
    {
        match self.places.first_wanted(wanted, selection) {
            None => None,
            Some(place) => Some(self.take_at(place)),
        }
    }

    /// Takes the signal of the timer with this key out. The reply is whether it was there.
    pub fn forget(&mut self, key: &TimerKey) -> bool
        ensures reply { result ≡ holds_signal_of key.now (gots_in self.old) }
        ensures left { gots_in self.new ≡ without_signal key.now (gots_in self.old) }
        ensures same { result ≡ false → self.new ≡ self.old }
    {
        match self.places.of_timer(key) {
            None => false,
            Some(place) => {
                let _ = self.take_at(place);
                true
            }
        }
    }

    /// Takes the last entry out, if there is one.
    pub fn pop_last(&mut self) -> Option<Got>
        ensures { MatchOption result ((self.new ≡ []) × (self.old ≡ []))
            (λ got. gots_in self.old ≡ gots_in self.new ++ got ∷ []) }
    {
        let (place, got) = self.entries.pop_last()?;
        self.places.forget(&got, place);
        Some(got)
    }

    /// Takes all out.
    pub fn clear(&mut self)
        ensures { self.new ≡ [] }
    {
        self.entries.clear();
        self.places.clear();
    }

    /// Takes the entry at a place out.
    fn take_at(&mut self, place: u64) -> Got
        requires { is_some (entry_at place self.old) ≡ true }
        ensures { Loses self.old place result self.new }
    {
        let Some(got) = self.entries.remove(&place) else {
            unreachable!()
        };
        self.places.forget(&got, place);
        got
    }
}
