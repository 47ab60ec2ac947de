//! What the ends of channels are.

ghost use Rattle.std.specs.Prelude.{◌≡◌, ◌==◌, length, map, IfOk};
ghost use Rattle.build_definitions.specs.Seen.{block_seen};
ghost use Rattle.build_network.specs.Agents.{agent_end, block_end, block_names, end_faults, end_in};
ghost use Rattle.build_names.specs.Faults.{Notes};
ghost use Rattle.build_names.specs.Names.{first_of, names_in};
ghost use Rattle.build_names.specs.Spaces.{names_of};
ghost use Rattle.sdl_tree.specs.Views.{end_value};

use crate::seen::{note_unknown, path_at};
use build_definitions::BlockEntry;
use build_expressions::AgentMeaning;
use build_names::{Faults, Names, ScopeId, Spaces, Token};
use build_routes::{End, counted};
use sdl_system::BlockId;
use sdl_tree::ChannelEnd;
use std::alloc::{AllocError, Global};

/// The names of the blocks, with their numbers.
pub fn block_names<'t>(
    alloc: Global,
    blocks: &[BlockEntry<'t>],
) -> Result<Names<'t, BlockId>, AllocError>
    ensures { IfOk result (λ names. names ≡ block_names (map block_seen blocks.now)) }
{
    let mut names = Names::new(alloc);
    for (index, entry) in blocks.iter().enumerate() {
        let number = counted(index)?;
        names.declare(&entry.definition.name, BlockId(number), &mut Faults::new())?;
    }
    Ok(names)
}

/// Looks up a name in just this scope.
pub fn get_at<T: Copy>(names: &Spaces<'_, T>, scope: ScopeId, name: &str) -> Option<T>
    ensures { result ≡ first_of (names_of names.now scope) name.now }
{
    match scope {
        ScopeId::System => names.outward(path_at(scope)).system.get(name),
        ScopeId::Block(_) => get_in(names.outward(path_at(scope)).block, name),
        ScopeId::Process(_) => get_in(names.outward(path_at(scope)).process, name),
    }
}

/// Whether this scope declares no name.
pub fn is_empty_at<T: Copy>(names: &Spaces<'_, T>, scope: ScopeId) -> bool
    ensures { result ≡ (length (names_of names.now scope) == 0) }
{
    match scope {
        ScopeId::System => names.outward(path_at(scope)).system.is_empty(),
        ScopeId::Block(_) => is_empty_in(names.outward(path_at(scope)).block),
        ScopeId::Process(_) => is_empty_in(names.outward(path_at(scope)).process),
    }
}

fn is_empty_in<T: Copy>(names: Option<&Names<'_, T>>) -> bool
    ensures { result ≡ (length (names_in names.entry) == 0) }
{
    match names {
        None => true,
        Some(names) => names.is_empty(),
    }
}

fn get_in<T: Copy>(names: Option<&Names<'_, T>>, name: &str) -> Option<T>
    ensures { result ≡ first_of (names_in names.entry) name.now }
{
    match names {
        None => None,
        Some(names) => names.get(name),
    }
}

/// The end, where the scope has it.
pub fn end_in(
    blocks: &Names<'_, BlockId>,
    agents: &Spaces<'_, AgentMeaning<'_>>,
    scope: ScopeId,
    end: &ChannelEnd,
) -> Option<End>
    ensures { result ≡ end_in blocks.now (names_of agents.now scope) (end_value end.now) }
{
    match end {
        ChannelEnd::Env(_) => Some(End::Env),
        ChannelEnd::Agent(name) => {
            agent_end(blocks.get(&name.text), get_at(agents, scope, &name.text))
        }
    }
}

/// Notes the name of an agent that the scope doesn't have.
pub fn note_end<'t>(
    blocks: &Names<'_, BlockId>,
    agents: &Spaces<'_, AgentMeaning<'_>>,
    scope: ScopeId,
    end: &'t ChannelEnd,
    faults: &mut Faults<'t>,
)
    ensures { Notes faults.old faults.new (end_faults blocks.now (names_of agents.now scope) (end_value end.now)) }
{
    if let ChannelEnd::Agent(name) = end {
        let found = agent_end(blocks.get(&name.text), get_at(agents, scope, &name.text));
        note_unknown(found.is_none(), Token::of_name(name), faults);
    }
}

fn agent_end(block: Option<BlockId>, meaning: Option<AgentMeaning<'_>>) -> Option<End>
    ensures { result ≡ agent_end block meaning.entry }
{
    match meaning {
        None => None,
        Some(AgentMeaning::Process { number, .. }) => Some(End::Process(number)),
        Some(AgentMeaning::Block) => block_end(block),
    }
}

fn block_end(block: Option<BlockId>) -> Option<End>
    ensures { result ≡ block_end block }
{
    match block {
        None => None,
        Some(block) => Some(End::Block(block)),
    }
}
