//! The system and its blocks.

ghost use Rattle.std.specs.Prelude.{◌≡◌, ◌≤◌, option_map};
ghost use Rattle.sdl_tree.specs.Views.{block_part_value, block_value, definition_value, system_definition_value, tree_value};
ghost use Rattle.sdl_parse.specs.Systems as spec;
ghost use Rattle.parse_expressions.specs.Parts.{sees_one};
ghost use Rattle.parse_expressions.specs.Reads.{Reads};

use crate::channels::{channel, connect};
use crate::place::Defining;
use crate::processes::process;
use crate::synonyms::synonym;
use parse_expressions::parts::{closing, end};
use parse_expressions::signals::{signal, signal_list};
use parse_expressions::{Cursor, Fault, Perhaps, Wanted, repeated};
use sdl_tree::{BlockDefinition, BlockPart, Definition, Mark, SystemDefinition, Tree};
use std::alloc::Global;

impl Perhaps<SystemDefinition> for Defining {
    ghost use Rattle.sdl_tree.specs.Tree as tree;
    ghost use Rattle.sdl_tree.specs.Views.{system_definition_value};
    ghost use Rattle.sdl_parse.specs.Systems.{system_definition};

    ghost Node = { tree.SystemDefinition };

    ghost value = { system_definition_value };

    ghost reads = { λ at. system_definition at.depth };
}

impl Perhaps<BlockPart> for Defining {
    ghost use Rattle.sdl_tree.specs.Tree as tree;
    ghost use Rattle.sdl_tree.specs.Views.{block_part_value};
    ghost use Rattle.sdl_parse.specs.Systems.{block_part};

    ghost Node = { tree.BlockPart };

    ghost value = { block_part_value };

    ghost reads = { λ at. block_part at.depth };
}

/// `spec = "system" NAME end {def} "endsystem" [NAME] end`, and nothing behind it.
#[tactic(auto, unfolding(crate::specs::Systems::specification))]
pub fn specification(
    alloc: Global,
    cursor: &mut Cursor<'_, '_>,
    depth: usize,
) -> Result<Tree, Fault>
    requires { depth ≤ 64 }
    ensures { Reads tree_value (spec.specification depth cursor.old) result cursor.new }
{
    cursor.expect(Mark::System)?;
    let name = cursor.name(alloc)?;
    end(cursor)?;
    let definitions = repeated(alloc, cursor, Defining { depth }, system_definition)?;
    closing(alloc, cursor, Mark::EndSystem, &name)?;
    at_end(cursor)?;
    Ok(Tree { name, definitions })
}

/// The end of the text.
#[tactic(auto, unfolding(crate::specs::Systems::at_end, parse_expressions::specs::Reading::front))]
fn at_end(cursor: &mut Cursor<'_, '_>) -> Result<(), Fault>
    ensures { Reads (λ _. tt) (spec.at_end cursor.old) result cursor.new }
{
    match cursor.front() {
        None => Ok(()),
        Some(_) => Err(Fault::Expected(Wanted::End)),
    }
}

/// `def`, where a block stands in a system alone, if one begins here.
#[tactic(auto, unfolding(crate::specs::Systems::system_definition))]
fn system_definition(
    alloc: Global,
    cursor: &mut Cursor<'_, '_>,
    at: Defining,
) -> Result<Option<SystemDefinition>, Fault>
    requires { at.depth ≤ 64 }
    ensures { Reads (option_map system_definition_value)
        (spec.system_definition at.depth cursor.old) result cursor.new }
{
    if cursor.sees(Mark::Block) {
        let block = block(alloc, cursor, at.depth)?;
        return Ok(Some(SystemDefinition::Block(block)));
    }
    if !begins_definition(cursor) {
        return Ok(None);
    }
    let shared = definition(alloc, cursor, at.depth)?;
    Ok(Some(SystemDefinition::Shared(shared)))
}

/// `block = "block" NAME end {def} "endblock" [NAME] end`
#[tactic(auto, unfolding(crate::specs::Systems::block))]
fn block(alloc: Global, cursor: &mut Cursor<'_, '_>, depth: usize) -> Result<BlockDefinition, Fault>
    requires { depth ≤ 64 }
    ensures { Reads block_value (spec.block depth cursor.old) result cursor.new }
{
    let word = cursor.expect(Mark::Block)?;
    let name = cursor.name(alloc)?;
    end(cursor)?;
    let definitions = repeated(alloc, cursor, Defining { depth }, block_part)?;
    closing(alloc, cursor, Mark::EndBlock, &name)?;
    Ok(BlockDefinition {
        word,
        name,
        definitions,
    })
}

/// `def`, where a connect stands in a block alone, if one begins here.
#[tactic(auto, unfolding(crate::specs::Systems::block_part))]
fn block_part(
    alloc: Global,
    cursor: &mut Cursor<'_, '_>,
    at: Defining,
) -> Result<Option<BlockPart>, Fault>
    requires { at.depth ≤ 64 }
    ensures { Reads (option_map block_part_value) (spec.block_part at.depth cursor.old) result cursor.new }
{
    if cursor.sees(Mark::Connect) {
        return Ok(Some(BlockPart::Connect(connect(alloc, cursor)?)));
    }
    if !begins_definition(cursor) {
        return Ok(None);
    }
    let shared = definition(alloc, cursor, at.depth)?;
    Ok(Some(BlockPart::Shared(shared)))
}

/// Whether what stands next begins a definition that both a system and a block can have.
fn begins_definition(cursor: &Cursor<'_, '_>) -> bool
    ensures { result ≡ sees_one spec.definition_marks cursor.now }
{
    cursor.sees(Mark::Signal)
        || cursor.sees(Mark::SignalList)
        || cursor.sees(Mark::Synonym)
        || cursor.sees(Mark::Channel)
        || cursor.sees(Mark::Process)
}

/// `def = signal | signallist | synonym | channel | process`, which both a system and a block can have.
#[tactic(auto, unfolding(crate::specs::Systems::definition))]
fn definition(alloc: Global, cursor: &mut Cursor<'_, '_>, depth: usize) -> Result<Definition, Fault>
    requires { depth ≤ 64 }
    ensures { Reads definition_value (spec.definition depth cursor.old) result cursor.new }
{
    if cursor.sees(Mark::Signal) {
        return Ok(Definition::Signals(signal(alloc, cursor)?));
    }
    if cursor.sees(Mark::SignalList) {
        return Ok(Definition::SignalList(signal_list(alloc, cursor)?));
    }
    if cursor.sees(Mark::Synonym) {
        return Ok(Definition::Synonyms(synonym(alloc, cursor, depth)?));
    }
    if cursor.sees(Mark::Channel) {
        return Ok(Definition::Channel(channel(alloc, cursor)?));
    }
    Ok(Definition::Process(process(alloc, cursor, depth)?))
}
