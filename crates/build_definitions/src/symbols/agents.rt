//! Names of blocks and processes.

ghost use Rattle.std.specs.Prelude.{◌≡◌, map, IfOk};
ghost use Rattle.build_definitions.specs.Seen.{agent_seen, process_seen};
ghost use Rattle.build_definitions.specs.Definitions.{rows_of};
ghost use Rattle.build_definitions.specs.Entries.{HasMeant, duplicates, entry_seen, standings};
ghost use Rattle.build_definitions.specs.Meanings.{agent_entries, agent_entry, agent_means, sorts_of};
ghost use Rattle.build_names.specs.Faults.{Notes};
ghost use Rattle.build_expressions.specs.Scope.{agent_meaning};

use crate::definitions::Definitions;
use crate::entries::{Agent, AgentEntry, ProcessEntry};
use crate::symbols::declaration::{Declaration, add, declare_all};
use build_expressions::AgentMeaning;
use build_names::{Faults, Spaces};
use sdl_system::{ProcessId, Sort};
use std::alloc::{AllocError, Global};

/// The names of blocks and processes, by their scopes.
pub fn declare_agents<'s, 't>(
    alloc: Global,
    definitions: &'s Definitions<'t>,
    faults: &mut Faults<'t>,
) -> Result<Spaces<'t, AgentMeaning<'s>>, AllocError>
    ensures spaces { IfOk result (λ spaces. HasMeant agent_meaning spaces (agent_entries (rows_of definitions.now))) }
    ensures noted { IfOk result (λ spaces. Notes faults.old faults.new
        (duplicates (standings (agent_entries (rows_of definitions.now))))) }
{
    let declarations = agent_declarations(alloc, &definitions.processes, &definitions.agents)?;
    declare_all(alloc, &declarations, faults)
}

fn agent_declarations<'s, 't>(
    alloc: Global,
    processes: &'s [ProcessEntry<'t>],
    table: &[AgentEntry<'t>],
) -> Result<Vec<Declaration<'t, AgentMeaning<'s>>>, AllocError>
    ensures { IfOk result (λ declarations. map (entry_seen agent_meaning) declarations.items
        ≡ map (agent_entry (map process_seen processes.now)) (map agent_seen table.now)) }
{
    let mut declarations = Vec::new(alloc);
    for entry in table {
        add(
            &mut declarations,
            Declaration {
                scope: entry.scope,
                name: entry.name,
                what: meaning_of(processes, entry.agent),
            },
        )?;
    }
    Ok(declarations)
}

/// Gives the meaning of a block or a process.
fn meaning_of<'s>(processes: &'s [ProcessEntry<'_>], agent: Agent) -> AgentMeaning<'s>
    ensures { agent_meaning result ≡ agent_means (map process_seen processes.now) agent }
{
    match agent {
        Agent::Block(_) => AgentMeaning::Block,
        Agent::Process(number) => AgentMeaning::Process {
            number,
            sorts: sorts_of(processes, number),
        },
    }
}

/// The sorts of the formal parameters of a process.
fn sorts_of<'s>(processes: &'s [ProcessEntry<'_>], number: ProcessId) -> &'s [Option<Sort>]
    ensures { result.now ≡ sorts_of (map process_seen processes.now) number }
{
    match processes.get(number.0 as usize) {
        None => &[],
        Some(process) => &process.sorts,
    }
}
