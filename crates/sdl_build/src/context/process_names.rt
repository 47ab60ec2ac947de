//! What a process has of its own.

ghost use Rattle.std.specs.Prelude.{◌≡◌, IfOk};
ghost use Rattle.build_process.specs.Numbered.{numbered};
ghost use Rattle.sdl_build.specs.ProcessScope.{numbered_states, reaching};
ghost use Rattle.build_names.specs.Labels.{names_listed, process_labels};
ghost use Rattle.build_names.specs.States.{different, state_names};
ghost use Rattle.sdl_tree.specs.Views.{process_value};

use crate::context::connections::Connections;
use crate::context::reaching::reaching;
use crate::context::tables::{label_table, state_table};
use build_names::{Names, labels_of, states_of};
use sdl_system::{LabelId, ProcessId, StateId};
use sdl_tree::{Name, ProcessDefinition};
use std::alloc::{AllocError, Global};

/// The states and labels of a process by their names, and the signals that it can send to a receiver.
#[derive(Drop)]
pub struct ProcessNames<'t> {
    /// The different names in the state lists, in the order of the text.
    pub names: Vec<&'t Name>,
    /// The same names.
    pub states: Names<'t, StateId>,
    pub labels: Names<'t, LabelId>,
    /// Whether a path leads a signal from the process to a receiver, by the signal's number.
    pub reaches: Vec<bool>,
}

impl<'t> ProcessNames<'t> {
    /// Collects those of the process of this number with this definition.
    pub fn of(
        alloc: Global,
        connections: &Connections,
        process: ProcessId,
        definition: &'t ProcessDefinition,
    ) -> Result<Self, AllocError>
        ensures names { IfOk result (λ own. names_listed own.names.items
            ≡ different (state_names (process_value definition.now))) }
        ensures states { IfOk result (λ own. own.states
            ≡ numbered_states 0 (different (state_names (process_value definition.now)))) }
        ensures labels { IfOk result (λ own. own.labels
            ≡ numbered 0 (process_labels (process_value definition.now))) }
        ensures reaches { IfOk result (λ own. own.reaches.items
            ≡ reaching connections.now.routes process connections.now.network.signals) }
    {
        let reaches = reaching(
            alloc,
            &connections.routes,
            process,
            connections.network.signals,
        )?;
        let labels = labels_in(alloc, definition)?;
        let names = states_of(alloc, definition)?;
        let states = state_table(alloc, &names)?;
        Ok(ProcessNames {
            names,
            states,
            labels,
            reaches,
        })
    }
}

/// The labels of a process by their names.
fn labels_in<'t>(
    alloc: Global,
    definition: &'t ProcessDefinition,
) -> Result<Names<'t, LabelId>, AllocError>
    ensures { IfOk result (λ labels. labels ≡ numbered 0 (process_labels (process_value definition.now))) }
{
    let labels = labels_of(alloc, definition)?;
    label_table(alloc, &labels)
}
