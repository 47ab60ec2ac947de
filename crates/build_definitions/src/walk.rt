//! The walk through a specification that finds its definitions.

ghost use Rattle.std.specs.Prelude.{◌≡◌, ◌++◌, ◌∷◌, [], flat_map, map, option_map, IfOk, OnOk};
ghost use Rattle.build_definitions.specs.Parts.{after_block_part, after_block_parts, after_definition, block_part_parts, block_parts, blocks_after, definition_parts, groups_of, local_parts, own_parts, parameter_part, parts_in, placed, processes_after, system_parts, variable_part};
ghost use Rattle.build_definitions.specs.Views.{part_value, parts_listed};
ghost use Rattle.sdl_tree.specs.Tree as tree;
ghost use Rattle.sdl_tree.specs.Views.{block_part_value, block_value, definition_value, fpar_value, local_value, parameters_value, process_value, system_definition_value, tree_value, variables_value};

use crate::enter::enter;
use crate::number::next_number;
use crate::part::{Part, Placed};
use build_names::ScopeId;
use sdl_system::{BlockId, ProcessId};
use sdl_tree::{
    BlockDefinition, BlockPart, Definition, FormalParameters, LocalDefinition, ParameterGroup,
    ProcessDefinition, SystemDefinition, Tree, VariableGroup,
};
use std::alloc::{AllocError, Global};

/// The definitions of a specification in the order of the text.
pub fn parts_in<'t>(alloc: Global, tree: &'t Tree) -> Result<Vec<Placed<'t>>, AllocError>
    ensures { IfOk result (λ parts. parts_listed parts.items ≡ parts_in (tree_value tree.now)) }
{
    let mut walk = Walk {
        parts: Vec::new(alloc),
        blocks: 0,
        processes: 0,
    };
    for definition in &tree.definitions {
        walk.add_system_definition(definition)?;
    }
    Ok(walk.parts)
}

/// The definitions so far, and how many blocks and processes are among them.
#[derive(Drop)]
struct Walk<'t> {
    parts: Vec<Placed<'t>>,
    blocks: u32,
    processes: u32,
}

impl<'t> Walk<'t> {
    fn add_system_definition(&mut self, definition: &'t SystemDefinition) -> Result<(), AllocError>
        ensures parts { OnOk result (parts_listed self.new.parts.items ≡ parts_listed self.old.parts.items
            ++ system_parts self.old.blocks self.old.processes (system_definition_value definition.now)) }
        ensures blocks { OnOk result (self.new.blocks
            ≡ blocks_after self.old.blocks (system_definition_value definition.now)) }
        ensures processes { OnOk result (self.new.processes
            ≡ processes_after self.old.processes (system_definition_value definition.now)) }
    {
        match definition {
            SystemDefinition::Shared(definition) => self.add_definition(
                ScopeId::System,
                definition,
            ),
            SystemDefinition::Block(block) => self.add_block(block),
        }
    }

    fn add_block(&mut self, block: &'t BlockDefinition) -> Result<(), AllocError>
        ensures parts { OnOk result (parts_listed self.new.parts.items ≡ parts_listed self.old.parts.items
            ++ system_parts self.old.blocks self.old.processes (tree.Block (block_value block.now))) }
        ensures blocks { OnOk result (self.new.blocks
            ≡ blocks_after self.old.blocks (tree.Block (block_value block.now))) }
        ensures processes { OnOk result (self.new.processes
            ≡ processes_after self.old.processes (tree.Block (block_value block.now))) }
    {
        let number = BlockId(self.blocks);
        self.blocks = next_number(self.blocks)?;
        let part = Part::Block {
            number,
            definition: block,
        };
        push(&mut self.parts, ScopeId::System, part)?;
        self.add_block_parts(ScopeId::Block(number), &block.definitions)
    }

    fn add_block_parts(&mut self, scope: ScopeId, parts: &'t [BlockPart]) -> Result<(), AllocError>
        ensures parts { OnOk result (parts_listed self.new.parts.items ≡ parts_listed self.old.parts.items
            ++ block_parts scope self.old.processes (map block_part_value parts.now)) }
        ensures blocks { OnOk result (self.new.blocks ≡ self.old.blocks) }
        ensures processes { OnOk result (self.new.processes
            ≡ after_block_parts self.old.processes (map block_part_value parts.now)) }
    {
        for part in parts {
            self.add_block_part(scope, part)?;
        }
        Ok(())
    }

    fn add_block_part(&mut self, scope: ScopeId, part: &'t BlockPart) -> Result<(), AllocError>
        ensures parts { OnOk result (parts_listed self.new.parts.items ≡ parts_listed self.old.parts.items
            ++ block_part_parts scope self.old.processes (block_part_value part.now)) }
        ensures blocks { OnOk result (self.new.blocks ≡ self.old.blocks) }
        ensures processes { OnOk result (self.new.processes
            ≡ after_block_part self.old.processes (block_part_value part.now)) }
    {
        match part {
            BlockPart::Shared(definition) => self.add_definition(scope, definition),
            BlockPart::Connect(connection) => {
                push(&mut self.parts, scope, Part::Connection(connection))
            }
        }
    }

    fn add_definition(
        &mut self,
        scope: ScopeId,
        definition: &'t Definition,
    ) -> Result<(), AllocError>
        ensures parts { OnOk result (parts_listed self.new.parts.items ≡ parts_listed self.old.parts.items
            ++ definition_parts scope self.old.processes (definition_value definition.now)) }
        ensures blocks { OnOk result (self.new.blocks ≡ self.old.blocks) }
        ensures processes { OnOk result (self.new.processes
            ≡ after_definition self.old.processes (definition_value definition.now)) }
    {
        match definition {
            Definition::Signals(signals) => push(&mut self.parts, scope, Part::Signals(signals)),
            Definition::SignalList(list) => push(&mut self.parts, scope, Part::SignalList(list)),
            Definition::Synonyms(synonyms) => {
                push(&mut self.parts, scope, Part::Synonyms(&synonyms.synonyms))
            }
            Definition::Channel(channel) => push(&mut self.parts, scope, Part::Channel(channel)),
            Definition::Process(process) => self.add_process(scope, process),
        }
    }

    fn add_process(
        &mut self,
        scope: ScopeId,
        process: &'t ProcessDefinition,
    ) -> Result<(), AllocError>
        ensures parts { OnOk result (parts_listed self.new.parts.items ≡ parts_listed self.old.parts.items
            ++ definition_parts scope self.old.processes (tree.Process (process_value process.now))) }
        ensures blocks { OnOk result (self.new.blocks ≡ self.old.blocks) }
        ensures processes { OnOk result (self.new.processes
            ≡ after_definition self.old.processes (tree.Process (process_value process.now))) }
    {
        let number = ProcessId(self.processes);
        self.processes = next_number(self.processes)?;
        let part = Part::Process {
            number,
            definition: process,
        };
        push(&mut self.parts, scope, part)?;
        add_own(&mut self.parts, ScopeId::Process(number), process)
    }
}

/// Adds the parts of a process: its formal parameters, and then its own definitions.
fn add_own<'t>(
    parts: &mut Vec<Placed<'t>>,
    scope: ScopeId,
    process: &'t ProcessDefinition,
) -> Result<(), AllocError>
    ensures { OnOk result (parts_listed parts.new.items
        ≡ parts_listed parts.old.items ++ own_parts scope (process_value process.now)) }
{
    add_formal(parts, scope, &process.parameters)?;
    add_locals(parts, scope, &process.definitions)
}

fn add_formal<'t>(
    parts: &mut Vec<Placed<'t>>,
    scope: ScopeId,
    parameters: &'t Option<FormalParameters>,
) -> Result<(), AllocError>
    ensures { OnOk result (parts_listed parts.new.items ≡ parts_listed parts.old.items
        ++ flat_map (parameter_part scope) (groups_of (option_map fpar_value parameters.now))) }
{
    match parameters {
        None => Ok(()),
        Some(formal) => add_parameters(parts, scope, &formal.groups),
    }
}

fn add_parameters<'t>(
    parts: &mut Vec<Placed<'t>>,
    scope: ScopeId,
    groups: &'t [ParameterGroup],
) -> Result<(), AllocError>
    ensures { OnOk result (parts_listed parts.new.items ≡ parts_listed parts.old.items
        ++ flat_map (parameter_part scope) (map parameters_value groups.now)) }
{
    for group in groups {
        push(parts, scope, Part::Parameters(group))?;
    }
    Ok(())
}

fn add_locals<'t>(
    parts: &mut Vec<Placed<'t>>,
    scope: ScopeId,
    definitions: &'t [LocalDefinition],
) -> Result<(), AllocError>
    ensures { OnOk result (parts_listed parts.new.items ≡ parts_listed parts.old.items
        ++ flat_map (local_parts scope) (map local_value definitions.now)) }
{
    for definition in definitions {
        add_local(parts, scope, definition)?;
    }
    Ok(())
}

fn add_local<'t>(
    parts: &mut Vec<Placed<'t>>,
    scope: ScopeId,
    definition: &'t LocalDefinition,
) -> Result<(), AllocError>
    ensures { OnOk result (parts_listed parts.new.items
        ≡ parts_listed parts.old.items ++ local_parts scope (local_value definition.now)) }
{
    match definition {
        LocalDefinition::Signals(signals) => push(parts, scope, Part::Signals(signals)),
        LocalDefinition::SignalList(list) => push(parts, scope, Part::SignalList(list)),
        LocalDefinition::Synonyms(synonyms) => {
            push(parts, scope, Part::Synonyms(&synonyms.synonyms))
        }
        LocalDefinition::SignalSet(signals) => push(parts, scope, Part::SignalSet(signals)),
        LocalDefinition::Variables(groups) => add_variables(parts, scope, groups),
        LocalDefinition::Timers(timers) => push(parts, scope, Part::Timers(&timers.timers)),
    }
}

fn add_variables<'t>(
    parts: &mut Vec<Placed<'t>>,
    scope: ScopeId,
    groups: &'t [VariableGroup],
) -> Result<(), AllocError>
    ensures { OnOk result (parts_listed parts.new.items ≡ parts_listed parts.old.items
        ++ flat_map (variable_part scope) (map variables_value groups.now)) }
{
    for group in groups {
        push(parts, scope, Part::Variables(group))?;
    }
    Ok(())
}

fn push<'t>(parts: &mut Vec<Placed<'t>>, scope: ScopeId, part: Part<'t>) -> Result<(), AllocError>
    ensures { OnOk result (parts_listed parts.new.items
        ≡ parts_listed parts.old.items ++ placed scope (part_value part.entry) ∷ []) }
{
    enter(parts, Placed { scope, part })
}
