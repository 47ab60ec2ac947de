//! A process with its names resolved (Z.101: process).

ghost use Rattle.std.specs.Prelude.{◌≡◌, option_copied, slice_get};
ghost use Rattle.sdl_system.specs.Process.{reaction_in, table_of};

use crate::expression::Expression;
use crate::id::{NodeId, StateId, TableId};
use crate::signal::SignalSet;
use crate::sort::Sort;
use crate::state::{Reaction, StateTable};
use crate::statement::Node;
use port_model::{SignalId, Value};

/// A process, of which instances are made.
pub struct Process {
    pub name: String,
    /// How many instances there are at the start.
    pub initial: u32,
    /// How many there may be at most; None: any number.
    pub maximum: Option<u32>,
    /// How many of the variables are formal parameters: the first ones.
    pub parameters: u32,
    pub variables: Vec<Variable>,
    /// The valid input set: the signals and timers for which an asterisk in an input or a save stands.
    pub valid: SignalSet,
    pub states: Vec<State>,
    /// The tables of the states. States that do the same share one.
    pub tables: Vec<StateTable>,
    /// The enabling conditions and those of the continuous signals.
    pub conditions: Vec<Expression>,
    /// The statements of all transitions.
    pub nodes: Vec<Node>,
    /// Where the start transition begins.
    pub start: NodeId,
}

/// Written out, as that of a system is.
impl Drop for Process {
    fn drop(self) {
        let Process {
            name: _,
            initial: _,
            maximum: _,
            parameters: _,
            variables: _,
            valid: _,
            states: _,
            tables: _,
            conditions: _,
            nodes: _,
            start: _,
        } = self;
    }
}

/// A variable, with the value that it has before the start, where it has one.
#[derive(Drop)]
pub struct Variable {
    pub name: String,
    pub sort: Sort,
    pub initial: Option<Value>,
}

/// A state, and the table of what it does.
#[derive(Drop)]
pub struct State {
    pub name: String,
    pub table: TableId,
}

impl Process {
    /// The node of this number.
    pub fn node(&self, node: NodeId) -> Option<&Node>
        ensures { option_copied result ≡ slice_get self.now.nodes.items node.0 }
    {
        self.nodes.get(node.0 as usize)
    }

    /// The state of this number.
    pub fn state(&self, state: StateId) -> Option<&State>
        ensures { option_copied result ≡ slice_get self.now.states.items state.0 }
    {
        self.states.get(state.0 as usize)
    }

    /// Gives the table of the state of this number.
    pub fn table(&self, state: StateId) -> Option<&StateTable>
        ensures { option_copied result ≡ table_of self.now state }
    {
        let state = self.state(state)?;
        self.tables.get(state.table.0 as usize)
    }

    /// Gives the reaction of a state to a signal. It is that of the input or save that names the signal, else that of
    /// the asterisk, if the signal is in the valid input set. With None the signal is discarded.
    pub fn reaction(&self, state: StateId, signal: SignalId) -> Option<&Reaction>
        ensures { option_copied result ≡ reaction_in self.now state signal }
    {
        let table = self.table(state)?;
        match table.reactions.get(signal) {
            Some(reaction) => Some(reaction),
            None if self.valid.contains(signal) => table.rest.as_ref(),
            None => None,
        }
    }
}
