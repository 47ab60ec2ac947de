//! Where the entries stand that a port has passed over, by their names and by their timers.
ghost use Rattle.std.specs.Prelude.{◌≡◌, false, min, IsTrue, MatchOption};
ghost use Rattle.port_model.specs.Places.{HaveNames, IsBlank, IsFirstFrom, IsFirstWanted, IsNoted, IsSame, IsTimed, IsUnnoted, place_of, NoneFrom, NoneWanted};

use crate::got::Got;
use crate::selection::Selection;
use crate::values::{SignalId, TimerKey};
use crate::wanted::Wanted;
use std::alloc::Global;
use std::collections::{BTreeMap, BTreeSet};
use std::marker::Model;

/// A name, and a place at which an entry of this name stands. In order by name, and those of one name by place.
#[derive(Clone, Copy, PartialEq, Eq, PartialOrd, Ord)]
pub struct NamedPlace {
    pub name: SignalId,
    pub place: u64,
}

/// The places of entries: all of them by name, and those of timers' signals by timer.
#[derive(Drop)]
pub struct Places {
    names: BTreeSet<NamedPlace>,
    timers: BTreeMap<TimerKey, u64>,
}

impl Model for Places {
    ghost use Rattle.port_model.specs.Places.{HaveNames, PlacesValue};

    ghost Value = { PlacesValue };

    ghost view = { λ p. record {
      names = p.names.keys;
      timers = p.timers.entries;
    } };

    ghost invariant = { λ p. HaveNames p.names.keys };
}

impl Places {
    /// No entry has a place. Takes no memory.
    pub fn new(alloc: Global) -> Self
        ensures { IsBlank result }
    {
        Places {
            names: BTreeSet::new(alloc),
            timers: BTreeMap::new(alloc),
        }
    }

    /// Notes that an entry stands at this place. The reply is whether it is noted now: it isn't for lack of memory, and
    /// where its name has that place already or its timer has one.
    pub fn note(&mut self, got: &Got, place: u64) -> bool
        ensures noted { IsTrue result → IsNoted got.now place self.old self.new }
        ensures refused { result ≡ false → IsSame self.old self.new }
    {
        let name = got.name();
        let Ok(true) = self.names.insert(NamedPlace { name, place }) else {
            return false;
        };
        if self.note_timer(got, place) {
            return true;
        }
        self.names.remove(&NamedPlace { name, place });
        false
    }

    /// Notes the place of an entry by its timer, if it is a timer's signal.
    fn note_timer(&mut self, got: &Got, place: u64) -> bool
        ensures names { self.new.names ≡ self.old.names }
        ensures noted { IsTrue result → IsTimed got.now place self.old self.new }
        ensures refused { result ≡ false → IsSame self.old self.new }
    {
        let Got::Timer(key) = got else {
            return true;
        };
        if self.timers.contains_key(key) {
            return false;
        }
        let Ok(key) = key.copied() else {
            return false;
        };
        if let Err(_) = self.timers.insert(key, place) {
            return false;
        }
        true
    }

    /// Forgets that an entry stands at this place.
    pub fn forget(&mut self, got: &Got, place: u64)
        ensures { IsUnnoted got.now place self.old self.new }
    {
        self.names.remove(&NamedPlace {
            name: got.name(),
            place,
        });
        if let Got::Timer(key) = got {
            self.timers.remove(key);
        }
    }

    /// Forgets all.
    pub fn clear(&mut self)
        ensures { IsBlank self.new }
    {
        self.names.clear();
        self.timers.clear();
    }

    /// Where the signal of the timer with this key stands.
    pub fn of_timer(&self, key: &TimerKey) -> Option<u64>
        ensures { result ≡ place_of self.now key.now }
    {
        self.timers.get(key).copied()
    }

    /// The first place of an entry that is wanted. It takes a time that grows with the number of names, and
    /// logarithmically with that of entries.
    pub fn first_wanted(&self, wanted: Wanted, selection: &Selection) -> Option<u64>
        ensures { MatchOption result (NoneWanted wanted selection.now self.now)
            (IsFirstWanted wanted selection.now self.now) }
    {
        let mut first = None;
        let mut from = 0;
        while let Some(found) = self.first_from(SignalId(from)) {
            if wanted.takes(selection.class_of(found.name)) {
                first = Some(lesser(first, found.place));
            }
            if found.name.0 == u32::MAX {
                return first;
            }
            from = found.name.0 + 1;
        }
        first
    }

    /// The first name that has a place, from this one on, with its first place.
    fn first_from(&self, name: SignalId) -> Option<NamedPlace>
        ensures first { MatchOption result (NoneFrom name self.now) (IsFirstFrom name self.now) }
        ensures names { HaveNames self.now.names }
    {
        let from = NamedPlace { name, place: 0 };
        match self.names.range(from..).next() {
            None => None,
            Some(found) => Some(*found),
        }
    }
}

/// The lesser of a place, if there is one, and another.
fn lesser(place: Option<u64>, other: u64) -> u64
    ensures { MatchOption place (result ≡ other) (λ p. result ≡ min p other) }
{
    match place {
        None => other,
        Some(place) => place.min(other),
    }
}
