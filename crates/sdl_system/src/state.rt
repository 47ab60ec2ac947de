//! States, and what begins their transitions (Z.101 and Z.102: state, input, priority input, save, continuous signal).

ghost use Rattle.std.specs.Prelude.{◌≡◌, option_copied};
ghost use Rattle.sdl_system.specs.State.{choice_of, named_reaction};

use crate::id::{ConditionId, NodeId, VariableId};
use indexmap::IndexMap;
use port_model::{Class, Selection, SignalId};
use std::marker::Model;

/// The table of a state: its reactions to signals, its enabling conditions and its continuous signals. States whose
/// parts are the same share it.
pub struct StateTable {
    /// The class of each signal where every condition is true.
    pub selection: Selection,
    /// The reactions to the signals that the state names.
    pub reactions: Reactions,
    /// The reaction to the signals of the valid input set that it doesn't name, if an asterisk stands.
    pub rest: Option<Reaction>,
    /// The enabling conditions, in the order of the text.
    pub conditions: Vec<Enabling>,
    /// The continuous signals, in the order in which they are tried.
    pub continuous: Vec<Continuous>,
}

/// Written out, so that it is proved here, and not anew in each crate that drops one.
impl Drop for StateTable {
    fn drop(self) {
        let StateTable {
            selection: _,
            reactions: _,
            rest: _,
            conditions: _,
            continuous: _,
        } = self;
    }
}

/// So few signals are compared one by one, which is sooner done than to look for one by its hash.
const FEW: usize = 8;

/// The reactions of a state, one to each signal that it names.
pub struct Reactions {
    by_signal: IndexMap<SignalId, Reaction>,
}

/// Written out, so that it is proved here, and not anew in each crate that drops one.
impl Drop for Reactions {
    fn drop(self) {
        let Reactions { by_signal: _ } = self;
    }
}

impl Model for Reactions {
    ghost use Rattle.std.specs.Prelude.{List};
    ghost use Rattle.port_model.specs.declared.values.item.SignalId.{SignalId};
    ghost use Rattle.sdl_system.specs.declared.state.Reaction.{Reaction};

    ghost Value = { List (SignalId × Reaction) };

    ghost view = { λ reactions. reactions.by_signal.entries };
}

impl Reactions {
    /// Makes the reactions of this table, which has one for each of its signals. Takes no memory.
    pub fn new(by_signal: IndexMap<SignalId, Reaction>) -> Self
        ensures { result ≡ by_signal.entries }
    {
        Reactions { by_signal }
    }

    /// Gives the reaction to a signal, if the state names it.
    pub fn get(&self, signal: SignalId) -> Option<&Reaction>
        ensures { option_copied result ≡ named_reaction self.now signal }
    {
        if self.by_signal.len() > FEW {
            return self.by_signal.get(&signal);
        }
        for place in 0..self.by_signal.len() {
            let Some((name, reaction)) = self.by_signal.get_index(place) else {
                unreachable!()
            };
            if signal == *name {
                return Some(reaction);
            }
        }
        None
    }
}

/// The reaction of a state to a signal.
#[derive(Drop)]
pub enum Reaction {
    /// The signal begins a transition where its enabling condition is true, and waits where that is false.
    Input {
        reception: Reception,
        condition: Option<ConditionId>,
    },
    /// The signal begins a transition, before those that are no priority inputs.
    Priority(Reception),
    /// The signal waits.
    Save,
}

/// Where the values of a signal go, and the transition that it begins. A value without a variable is dropped, and so
/// are those past the end of the list.
#[derive(Drop)]
pub struct Reception {
    pub variables: Vec<Option<VariableId>>,
    pub begin: NodeId,
}

/// The class of a signal where every condition is true, and the condition without which it waits.
#[derive(Clone, Copy, PartialEq, Eq)]
pub struct Choice {
    pub class: Class,
    pub condition: Option<ConditionId>,
}

impl Choice {
    /// The class and the condition of a signal with which this is done; with nothing done it is discarded.
    pub fn of(reaction: Option<&Reaction>) -> Choice
        ensures { result ≡ choice_of (option_copied reaction.entry) }
    {
        let (class, condition) = match reaction {
            Some(Reaction::Input { condition, .. }) => (Class::Input, *condition),
            Some(Reaction::Priority(_)) => (Class::Priority, None),
            Some(Reaction::Save) => (Class::Saved, None),
            None => (Class::Discard, None),
        };
        Choice { class, condition }
    }
}

/// An enabling condition, with what waits while it is false.
#[derive(Drop)]
pub struct Enabling {
    pub condition: ConditionId,
    pub signals: Enabled,
}

/// The signals of an input with an enabling condition.
#[derive(Drop)]
pub enum Enabled {
    /// Those that the input names.
    Named(Vec<SignalId>),
    /// Those of the valid input set that the state doesn't name (`input *`).
    Rest,
}

/// A continuous signal: its transition begins where its condition is true and the port has nothing to be consumed.
#[derive(Clone, Copy, PartialEq, Eq)]
pub struct Continuous {
    pub condition: ConditionId,
    /// Its number among the continuous signals of the state, from 1 in the order of the text.
    pub number: u32,
    pub begin: NodeId,
}
