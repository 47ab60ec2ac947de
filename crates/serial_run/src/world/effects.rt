//! The acts of a step, in their order.

ghost use Rattle.std.specs.Prelude.{◌≡◌, ◌∷◌, ◌++◌, [], IfNone, IsOk, OnErr, OnOk, option_to_list, true};

use crate::world::effect::Effect;
use std::alloc::{AllocError, Global};
use std::collections::VecDeque;
use std::marker::Model;

/// The acts of a step so far, in their order. The first of them takes no memory, and most steps have no other; those
/// behind it go into a list. They are cleared before the next step, so the list keeps its memory.
#[derive(Drop)]
pub struct Effects {
    first: Option<Effect>,
    rest: VecDeque<Effect>,
}

impl Model for Effects {
    ghost use Rattle.std.specs.Prelude.{length};
    ghost use Rattle.std.specs.VecDeque.{deque_capacity};
    ghost use Rattle.serial_run.specs.Effects.{ActList, IsFirst, is_room, listed};

    ghost Value = { ActList };

    ghost view = { λ a. record {
      items = listed a.first a.rest.items;
      has_room = is_room a.first (length a.rest.items) (deque_capacity a.rest);
    } };

    ghost invariant = { λ a. IsFirst a.first a.rest.items };
}

impl Effects {
    /// No acts so far. Takes no memory.
    pub fn new(alloc: Global) -> Self
        ensures { result.items ≡ [] }
    {
        Effects {
            first: None,
            rest: VecDeque::new(alloc),
        }
    }

    /// Drops all acts. There is room for the first then.
    #[inline(always)]
    pub fn clear(&mut self)
        ensures items { self.new.items ≡ [] }
        ensures room { self.new.has_room ≡ true }
    {
        self.first = None;
        if !self.rest.is_empty() {
            self.rest.clear();
        }
    }

    /// An act more. Refused for lack of memory, but never where there is room; nothing has changed then.
    #[inline(always)]
    pub fn push(&mut self, effect: Effect) -> Result<(), AllocError>
        ensures ok { OnOk result (self.new.items ≡ self.old.items ++ effect ∷ []) }
        ensures err { OnErr result (self.new.items ≡ self.old.items) }
        ensures succeeds { self.old.has_room ≡ true → IsOk result }
    {
        if self.first.is_none() {
            self.first = Some(effect);
            return Ok(());
        }
        self.push_later(effect)
    }

    /// An act more, which few steps have.
    #[inline(never)]
    fn push_later(&mut self, effect: Effect) -> Result<(), AllocError>
        ensures ok { OnOk result (self.new.items ≡ self.old.items ++ effect ∷ []) }
        ensures err { OnErr result (self.new.items ≡ self.old.items) }
        ensures succeeds { self.old.has_room ≡ true → IsOk result }
    {
        self.prepare()?;
        self.push_reserved(effect);
        Ok(())
    }

    /// Makes room for one act more. Refused for lack of memory, but never where there is room.
    #[inline(always)]
    pub fn prepare(&mut self) -> Result<(), AllocError>
        ensures ok { OnOk result (self.new.has_room ≡ true) }
        ensures items { self.new.items ≡ self.old.items }
        ensures succeeds { self.old.has_room ≡ true → IsOk result }
    {
        if self.first.is_none() || self.rest.len() < self.rest.capacity() {
            return Ok(());
        }
        self.rest.reserve(1)
    }

    /// An act more, for which there is room. Takes no memory.
    #[inline(always)]
    pub fn push_reserved(&mut self, effect: Effect)
        requires { self.old.has_room ≡ true }
        ensures { self.new.items ≡ self.old.items ++ effect ∷ [] }
    {
        if self.first.is_none() {
            self.first = Some(effect);
            return;
        }
        self.rest.push_back_reserved(effect);
    }

    /// Takes the first act out. None: there is none.
    #[inline(always)]
    pub fn pop_front(&mut self) -> Option<Effect>
        ensures items { self.old.items ≡ option_to_list result ++ self.new.items }
        ensures none { IfNone result (self.new.items ≡ []) }
    {
        let first = self.first.take()?;
        if let Some(next) = self.rest.pop_front() {
            self.first = Some(next);
        }
        Some(first)
    }
}
