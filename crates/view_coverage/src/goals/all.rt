//! All that there is to cover.

ghost use Rattle.std.specs.Prelude.{◌≡◌, map, IfOk};
ghost use Rattle.build_definitions.specs.Seen.{process_seen};
ghost use Rattle.sdl_tree.specs.Views.{process_value, tree_value};
ghost use Rattle.view_coverage.specs.Goals.{AreGoals, all_goals, goals_seen, process_goals};

use crate::goals::answer_list::answers_in;
use crate::goals::goal::{Goals, ProcessGoals};
use crate::goals::stimulus_list::stimuli_of;
use build_definitions::{Definitions, SymbolTable, next_number};
use build_names::{Faults, ScopeId, states_of};
use sdl_system::ProcessId;
use sdl_tree::{ProcessDefinition, Tree};
use std::alloc::{AllocError, Global};

/// What there is to cover in a specification with this text and this tree.
pub fn goals_of<'t>(alloc: Global, text: &[u8], tree: &'t Tree) -> Result<Goals<'t>, AllocError>
    ensures { IfOk result (λ goals. AreGoals (tree_value tree.now) goals.processes.items) }
{
    let mut faults = Faults::new();
    let definitions = Definitions::of(alloc, tree, &mut faults)?;
    let symbols = SymbolTable::of(alloc, &definitions, &mut faults)?;
    let processes = processes_of(alloc, &definitions, &symbols)?;
    let answers = answers_in(alloc, text)?;
    Ok(Goals { processes, answers })
}

/// What there is to cover in each process.
fn processes_of<'t>(
    alloc: Global,
    definitions: &Definitions<'t>,
    symbols: &SymbolTable<'_, 't>,
) -> Result<Vec<ProcessGoals<'t>>, AllocError>
    ensures { IfOk result (λ goals. map goals_seen goals.items
        ≡ all_goals symbols.now.signals (map process_seen definitions.now.processes.items)) }
{
    let mut processes = Vec::new(alloc);
    let mut next = 0;
    for entry in &definitions.processes {
        let process = ProcessId(next);
        let goals = process_goals(alloc, definitions, symbols, process, entry.definition)?;
        processes.push(goals)?;
        next = next_number(next)?;
    }
    Ok(processes)
}

fn process_goals<'t>(
    alloc: Global,
    definitions: &Definitions<'t>,
    symbols: &SymbolTable<'_, 't>,
    process: ProcessId,
    definition: &'t ProcessDefinition,
) -> Result<ProcessGoals<'t>, AllocError>
    ensures { IfOk result (λ goals. goals_seen goals ≡ process_goals symbols.now.signals
        (map process_seen definitions.now.processes.items) process (process_value definition.now)) }
{
    let path = definitions.path_of(ScopeId::Process(process));
    let signals = symbols.signals.outward(path);
    let states = states_of(alloc, definition)?;
    let stimuli = stimuli_of(alloc, &definition.body, &states, &signals)?;
    Ok(ProcessGoals {
        number: process,
        name: &definition.name,
        states,
        stimuli,
    })
}
