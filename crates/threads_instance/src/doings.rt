//! What an instance has done outside of itself, and whom it has created.

ghost use Rattle.std.specs.Prelude.{◌≡◌, [], ◌∷◌, ◌++◌, OnOk, true};
ghost use Rattle.run_semantics.specs.Effect.{Create};
ghost use Rattle.threads_instance.specs.Doings.{children_of};

use crate::effect_list::EffectList;
use port_model::Values;
use sdl_system::ProcessId;
use std::alloc::{AllocError, Global};
use std::marker::Model;

/// An instance that was created, by its number, and the values that its parameters got.
#[derive(Drop)]
pub struct Child {
    pub number: u32,
    pub values: Values,
}

/// The values that the parameters of an instance got, and its children, with the values that it gave them.
#[derive(Drop)]
pub struct Gifts {
    pub given: Values,
    pub children: Vec<Child>,
}

/// All that an instance has done outside of itself, for proofs alone, and its children, which are those that it has
/// created so.
#[derive(Drop)]
pub struct Doings {
    effects: EffectList,
    children: Vec<Child>,
}

impl Model for Doings {
    ghost use Rattle.std.specs.Prelude.{◌≡◌, nat_lt, vec_capacity, vec_len};
    ghost use Rattle.threads_instance.specs.Doings.{DoingsState, children_of};

    ghost Value = { DoingsState };

    ghost view = { λ d. record {
      effects = d.effects;
      children = d.children.items;
      room = nat_lt (vec_len d.children) (vec_capacity d.children);
    } };

    ghost invariant = { λ d. d.children.items ≡ children_of d.effects };
}

impl Doings {
    /// Nothing was done. Takes no memory.
    pub fn new(alloc: Global) -> Self
        ensures effects { result.effects ≡ [] }
        ensures children { result.children ≡ [] }
    {
        Doings {
            effects: EffectList::new(),
            children: Vec::new(alloc),
        }
    }

    /// What was done so far.
    pub fn effects(&self) -> &EffectList
        ensures { result.now ≡ self.now.effects }
    {
        &self.effects
    }

    /// Notes that all this was done. That nobody was created since is the caller's condition.
    pub fn note(&mut self, effects: EffectList)
        requires { children_of effects ≡ children_of self.old.effects }
        ensures effects { self.new.effects ≡ effects }
        ensures children { self.new.children ≡ self.old.children }
    {
        self.effects = effects;
    }

    /// Makes room for one more child.
    pub fn reserve(&mut self) -> Result<(), AllocError>
        ensures room { OnOk result (self.new.room ≡ true) }
        ensures effects { self.new.effects ≡ self.old.effects }
        ensures children { self.new.children ≡ self.old.children }
    {
        self.children.reserve(1)
    }

    /// Notes that an instance was created. That there is room is the caller's condition.
    #[tactic(auto, using(crate::proofs::EffectLemmas::children_more))]
    pub fn create(&mut self, process: ProcessId, number: u32, parent: u32, values: Values)
        requires { self.old.room ≡ true }
        ensures effects { self.new.effects ≡ self.old.effects ++ Create process number parent values ∷ [] }
        ensures children { self.new.children ≡ self.old.children ++ record { number = number; values = values } ∷ [] }
    {
        self.effects = self.effects.and_created(process, number, parent, &values);
        self.children.push_reserved(Child { number, values });
    }

    /// That the children are those that were created, as a fact.
    pub fn are_children(&self)
        ensures { self.now.children ≡ children_of self.now.effects }
    {
        let _children = &self.children;
    }

    /// The children.
    pub fn into_children(self) -> Vec<Child>
        ensures children { result.items ≡ self.children }
        ensures created { result.items ≡ children_of self.effects }
    {
        self.children
    }
}
