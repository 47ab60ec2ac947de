//! What waits in a port. An entry that a take passes over is set aside with its name, so that no later take looks at it
//! one by one: a take looks at no entry twice, however many wait.
ghost use Rattle.std.specs.Prelude.{◌≡◌, ◌==◌, ◌+◌, ◌<◌, ◌≤◌, [], ◌∷◌, ◌++◌, false, filter, length, remove, slice_index_or, All, MatchBool, MatchOption, IfSome, OnOk, OnErr};
ghost use Rattle.std.specs.VecDeque.{deque_capacity};
ghost use Rattle.port_model.specs.Backlog.{waiting_in, IsHead, Leaves, Passes};
ghost use Rattle.port_model.specs.Passed.{holds_signal_of};
ghost use Rattle.port_model.specs.Take.{HasClass, IsOrdinary, IsSaved};
ghost use Rattle.port_model.specs.Timers.{is_signal_of, without_signal};
ghost use Rattle.port_model.specs.Wanted.{IsUnwanted, IsWanted};
ghost use Rattle.port_model.specs.declared.selection.Class.TheVariants as class;

use crate::got::Got;
use crate::passed::Passed;
use crate::search;
use crate::selection::{Class, Selection};
use crate::values::TimerKey;
use crate::wanted::Wanted;
use std::alloc::{AllocError, Global};
use std::collections::VecDeque;
use std::marker::Model;

/// A list of what waits, in two parts: the entries that were passed over, and the rest, which has room for both.
#[derive(Drop)]
pub struct Backlog {
    passed: Passed,
    rest: VecDeque<Got>,
}

/// An entry that was taken out since it isn't saved, and its class.
#[derive(Drop)]
pub struct Unsaved {
    pub got: Got,
    pub class: Class,
}

impl Model for Backlog {
    ghost use Rattle.std.specs.Prelude.{◌+◌, ◌-◌, ◌≤◌, length};
    ghost use Rattle.std.specs.VecDeque.{deque_capacity};
    ghost use Rattle.port_model.specs.Backlog.{BacklogValue};
    ghost use Rattle.port_model.specs.Passed.{gots_in};

    ghost Value = { BacklogValue };

    ghost view = { λ b. record {
      passed = gots_in b.passed;
      rest = b.rest.items;
      room = deque_capacity b.rest - (length b.passed + length b.rest.items);
    } };

    ghost invariant = { λ b. length b.passed + length b.rest.items ≤ deque_capacity b.rest };
}

impl Backlog {
    /// Nothing waits. Takes no memory.
    pub fn new(alloc: Global) -> Self
        ensures { waiting_in result ≡ [] }
    {
        Backlog {
            passed: Passed::new(alloc),
            rest: VecDeque::new(alloc),
        }
    }

    /// How many entries wait.
    pub fn len(&self) -> usize
        ensures { result ≡ length (waiting_in self.now) }
    {
        self.passed.len() + self.rest.len()
    }

    /// Whether nothing waits.
    pub fn is_empty(&self) -> bool
        ensures { result ≡ (length (waiting_in self.now) == 0) }
    {
        self.len() == 0
    }

    /// Makes room for one entry more. Nothing else changes; and it is refused only where no room was left.
    pub fn reserve(&mut self) -> Result<(), AllocError>
        ensures ok { OnOk result (0 < self.new.room) }
        ensures same { waiting_in self.new ≡ waiting_in self.old }
        ensures full { OnErr result (self.old.room ≡ 0) }
    {
        room_beside(&mut self.rest, self.passed.len())
    }

    /// Puts an entry behind all that waits, into the room that was made. Takes no memory.
    #[inline(always)]
    pub fn push_reserved(&mut self, got: Got)
        requires { 0 < self.old.room }
        ensures { waiting_in self.new ≡ waiting_in self.old ++ got ∷ [] }
    {
        self.rest.push_back_reserved(got);
    }

    /// Takes the first entry of a priority input out, if there is one. Needs no memory.
    #[inline(always)]
    pub fn take_priority(&mut self, selection: &Selection) -> Option<Got>
        ensures { MatchOption result ((waiting_in self.new ≡ waiting_in self.old)
            × All (IsOrdinary selection.now) (waiting_in self.new))
            (λ got. Leaves (IsOrdinary selection.now) (waiting_in self.old) got (waiting_in self.new)
            × HasClass class.Priority selection.now got) }
    {
        if !selection.has_priority() {
            return None;
        }
        self.take_wanted(Wanted::Priority, selection)
    }

    /// The class of the first entry, where just this entry is to be taken. None: what is to be taken is still to be
    /// looked for.
    #[inline(always)]
    pub fn first_class(&self, selection: &Selection) -> Option<Class>
        ensures { IfSome result (IsHead selection.now self.now) }
    {
        if selection.has_priority() || !self.passed.is_empty() {
            return None;
        }
        let Some(got) = self.rest.front() else {
            return None;
        };
        match selection.class_of(got.name()) {
            Class::Saved => None,
            class => Some(class),
        }
    }

    /// Takes the first entry out, where nothing was passed over. Needs no memory.
    #[inline(always)]
    pub fn take_first(&mut self) -> Got
        requires passed { self.old.passed ≡ [] }
        requires some { 0 < length self.old.rest }
        ensures passed { self.new.passed ≡ [] }
        ensures rest { self.old.rest ≡ result ∷ self.new.rest }
    {
        self.rest.pop_front().unwrap()
    }

    /// Takes the first entry that isn't saved out, if there is one, with its class. Needs no memory.
    #[inline(never)]
    pub fn take_unsaved(&mut self, selection: &Selection) -> Option<Unsaved>
        ensures { MatchOption result ((waiting_in self.new ≡ waiting_in self.old)
            × All (IsSaved selection.now) (waiting_in self.new))
            (λ taken. Leaves (IsSaved selection.now) (waiting_in self.old) taken.got (waiting_in self.new)
            × HasClass taken.class selection.now taken.got × (taken.class ≡ class.Saved → ⊥)) }
    {
        let got = self.take_wanted(Wanted::Unsaved, selection)?;
        let class = selection.class_of(got.name());
        Some(Unsaved { got, class })
    }

    /// Takes the first entry that is wanted out, if there is one: of those passed over, else of the rest.
    #[inline(never)]
    fn take_wanted(&mut self, wanted: Wanted, selection: &Selection) -> Option<Got>
        ensures { MatchOption result ((waiting_in self.new ≡ waiting_in self.old)
            × All (IsUnwanted wanted selection.now) (waiting_in self.new))
            (λ got. Leaves (IsUnwanted wanted selection.now) (waiting_in self.old) got (waiting_in self.new)
            × IsWanted wanted selection.now got) }
    {
        if let Some(got) = self.passed.take_first(wanted, selection) {
            return Some(got);
        }
        self.pass_unwanted(wanted, selection);
        match search::first_wanted(&self.rest, wanted, selection) {
            None => None,
            Some(place) => Some(take_at(&mut self.rest, place)),
        }
    }

    /// Takes the signal of the timer with this key out, which waits once at most.
    pub fn forget(&mut self, key: &TimerKey)
        requires { length (filter (is_signal_of key.now) (waiting_in self.old)) ≤ 1 }
        ensures { waiting_in self.new ≡ without_signal key.now (waiting_in self.old) }
    {
        if !self.passed.forget(key) {
            self.pass_others(key);
            search::forget(&mut self.rest, key);
        }
    }

    /// Nothing waits any more.
    pub fn clear(&mut self)
        ensures { waiting_in self.new ≡ [] }
    {
        self.passed.clear();
        self.rest.clear();
    }

    /// Gives all that waits, in order. Takes no memory.
    pub fn into_deque(mut self) -> VecDeque<Got>
        ensures { result.items ≡ waiting_in self }
    {
        self.pass_back();
        let Backlog { rest, .. } = self;
        rest
    }

    /// Passes over the first entries of the rest that aren't wanted, as far as there is memory for it.
    fn pass_unwanted(&mut self, wanted: Wanted, selection: &Selection)
        requires { All (IsUnwanted wanted selection.now) self.old.passed }
        ensures same { waiting_in self.new ≡ waiting_in self.old }
        ensures passed { All (IsUnwanted wanted selection.now) self.new.passed }
    {
        for _ in 0..self.rest.len() {
            if !self.pass_next_unwanted(wanted, selection) {
                return;
            }
        }
    }

    /// Passes over the next entry of the rest, if it isn't wanted. The reply is whether it did.
    fn pass_next_unwanted(&mut self, wanted: Wanted, selection: &Selection) -> bool
        requires { All (IsUnwanted wanted selection.now) self.old.passed }
        ensures same { waiting_in self.new ≡ waiting_in self.old }
        ensures passed { All (IsUnwanted wanted selection.now) self.new.passed }
    {
        let Some(got) = self.rest.front() else {
            return false;
        };
        if wanted.takes(selection.class_of(got.name())) {
            return false;
        }
        self.pass_next()
    }

    /// Passes over the first entries of the rest up to the signal of this timer, as far as there is memory for it.
    fn pass_others(&mut self, key: &TimerKey)
        requires { holds_signal_of key.now self.old.passed ≡ false }
        ensures same { waiting_in self.new ≡ waiting_in self.old }
        ensures passed { holds_signal_of key.now self.new.passed ≡ false }
    {
        for _ in 0..self.rest.len() {
            if !self.pass_next_other(key) {
                return;
            }
        }
    }

    /// Passes over the next entry of the rest, if it isn't the signal of this timer. The reply is whether it did.
    fn pass_next_other(&mut self, key: &TimerKey) -> bool
        requires { holds_signal_of key.now self.old.passed ≡ false }
        ensures same { waiting_in self.new ≡ waiting_in self.old }
        ensures passed { holds_signal_of key.now self.new.passed ≡ false }
    {
        let Some(got) = self.rest.front() else {
            return false;
        };
        if got.is_signal_of(key) {
            return false;
        }
        self.pass_next()
    }

    /// Passes over the next entry of the rest. The reply is whether it did: only memory can be wanting.
    fn pass_next(&mut self) -> bool
        requires { 0 < length self.old.rest }
        ensures { MatchBool result (Passes self.old self.new)
            ((self.new.passed ≡ self.old.passed) × (self.new.rest ≡ self.old.rest)) }
    {
        let got = self.rest.pop_front().unwrap();
        match self.passed.push(got) {
            Ok(()) => true,
            Err(got) => {
                self.rest.push_front_reserved(got);
                false
            }
        }
    }

    /// Nothing is passed over any more.
    fn pass_back(&mut self)
        ensures passed { self.new.passed ≡ [] }
        ensures rest { self.new.rest ≡ waiting_in self.old }
    {
        while let Some(got) = self.passed.pop_last() {
            self.rest.push_front_reserved(got);
        }
    }
}

/// Takes the entry at `place` out. The first one leaves without moving the others.
#[inline(always)]
fn take_at(list: &mut VecDeque<Got>, place: usize) -> Got
    requires { place < length list.old.items }
    ensures entry { result ≡ slice_index_or list.old.items place result }
    ensures items { list.new.items ≡ remove list.old.items place }
    ensures capacity { deque_capacity list.new ≡ deque_capacity list.old }
{
    if place == 0 {
        list.pop_front().unwrap()
    } else {
        list.remove(place).unwrap()
    }
}

/// Room for one entry more in a list, and for as many as there are beside it. Where there is none, twice the room is
/// asked for: a list itself grows by its length alone, and what lies beside it may be nearly all there is.
fn room_beside(list: &mut VecDeque<Got>, others: usize) -> Result<(), AllocError>
    requires { others + length list.old.items ≤ deque_capacity list.old }
    ensures ok { OnOk result (others + length list.new.items < deque_capacity list.new) }
    ensures same { list.new.items ≡ list.old.items }
    ensures more { deque_capacity list.old ≤ deque_capacity list.new }
    ensures full { OnErr result (deque_capacity list.old ≡ others + length list.old.items) }
{
    let capacity = list.capacity();
    if others < capacity - list.len() {
        return Ok(());
    }
    let Some(more) = others.checked_add(1) else {
        return Err(AllocError);
    };
    list.reserve(more.saturating_add(capacity))
}
