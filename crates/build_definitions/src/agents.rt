//! Tables of blocks and processes.

ghost use Rattle.std.specs.Prelude.{◌≡◌, ◌++◌, [], ◌∷◌, flat_map, map, option_map, IfOk, OnOk};
ghost use Rattle.build_definitions.specs.Parts.{groups_of};
ghost use Rattle.build_definitions.specs.Rows.{group_sorts, parameter_sorts, placed_agents, placed_blocks, placed_processes, process_row};
ghost use Rattle.build_definitions.specs.Seen.{agent_seen, block_seen, process_seen};
ghost use Rattle.build_definitions.specs.Views.{placed_value};
ghost use Rattle.sdl_tree.specs.Views.{fpar_value, parameters_value, process_value};

use crate::enter::enter;
use crate::entries::{Agent, AgentEntry, BlockEntry, ProcessEntry};
use crate::part::{Part, Placed};
use crate::sorts::sort_at;
use build_names::ScopeId;
use sdl_system::Sort;
use sdl_tree::{FormalParameters, ParameterGroup, ProcessDefinition};
use std::alloc::{AllocError, Global};

pub fn add_block<'t>(table: &mut Vec<BlockEntry<'t>>, placed: Placed<'t>) -> Result<(), AllocError>
    ensures { OnOk result (map block_seen table.new.items
        ≡ map block_seen table.old.items ++ placed_blocks (placed_value placed.entry)) }
{
    match placed.part {
        Part::Block { definition, .. } => { enter(table, BlockEntry { definition }) }
        _ => Ok(()),
    }
}

pub fn add_process<'t>(
    alloc: Global,
    table: &mut Vec<ProcessEntry<'t>>,
    placed: Placed<'t>,
) -> Result<(), AllocError>
    ensures { OnOk result (map process_seen table.new.items
        ≡ map process_seen table.old.items ++ placed_processes (placed_value placed.entry)) }
{
    match placed.part {
        Part::Process { definition, .. } => { push_process(alloc, table, placed.scope, definition) }
        _ => Ok(()),
    }
}

fn push_process<'t>(
    alloc: Global,
    table: &mut Vec<ProcessEntry<'t>>,
    scope: ScopeId,
    definition: &'t ProcessDefinition,
) -> Result<(), AllocError>
    ensures { OnOk result (map process_seen table.new.items
        ≡ map process_seen table.old.items ++ process_row scope (process_value definition.now) ∷ []) }
{
    let sorts = parameter_sorts(alloc, &definition.parameters)?;
    enter(
        table,
        ProcessEntry {
            scope,
            definition,
            sorts,
        },
    )
}

/// The sorts of formal parameters, one for each name.
fn parameter_sorts(
    alloc: Global,
    parameters: &Option<FormalParameters>,
) -> Result<Vec<Option<Sort>>, AllocError>
    ensures { IfOk result (λ sorts. sorts.items
        ≡ flat_map group_sorts (groups_of (option_map fpar_value parameters.now))) }
{
    match parameters {
        None => Ok(Vec::new(alloc)),
        Some(formal) => sorts_of_groups(alloc, &formal.groups),
    }
}

fn sorts_of_groups(
    alloc: Global,
    groups: &[ParameterGroup],
) -> Result<Vec<Option<Sort>>, AllocError>
    ensures { IfOk result (λ sorts. sorts.items ≡ flat_map group_sorts (map parameters_value groups.now)) }
{
    let mut sorts = Vec::new(alloc);
    for group in groups {
        add_group(&mut sorts, group)?;
    }
    Ok(sorts)
}

fn add_group(sorts: &mut Vec<Option<Sort>>, group: &ParameterGroup) -> Result<(), AllocError>
    ensures { OnOk result (sorts.new.items ≡ sorts.old.items ++ group_sorts (parameters_value group.now)) }
{
    let sort = sort_at(&group.sort);
    for _name in &group.names {
        enter(sorts, sort)?;
    }
    Ok(())
}

pub fn add_agent<'t>(table: &mut Vec<AgentEntry<'t>>, placed: Placed<'t>) -> Result<(), AllocError>
    ensures { OnOk result (map agent_seen table.new.items
        ≡ map agent_seen table.old.items ++ placed_agents (placed_value placed.entry)) }
{
    match placed.part {
        Part::Block { number, definition } => {
            enter(
                table,
                AgentEntry {
                    scope: placed.scope,
                    name: &definition.name,
                    agent: Agent::Block(number),
                },
            )
        }
        Part::Process { number, definition } => {
            enter(
                table,
                AgentEntry {
                    scope: placed.scope,
                    name: &definition.name,
                    agent: Agent::Process(number),
                },
            )
        }
        _ => Ok(()),
    }
}
