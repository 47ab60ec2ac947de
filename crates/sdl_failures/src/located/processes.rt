//! The definition of a process.

ghost use Rattle.std.specs.Prelude.{◌≡◌, IfSome};
ghost use Rattle.std.specs.String.{string_bytes};

use sdl_system::{Process, ProcessId};
use sdl_tree::{BlockPart, Definition, ProcessDefinition, SystemDefinition, Tree};

/// The definition of the process of this number, which has its name. Processes are numbered in the order of the text.
pub fn definition_of<'t>(
    tree: &'t Tree,
    number: ProcessId,
    process: &Process,
) -> Option<&'t ProcessDefinition>
    ensures { IfSome result (λ found. string_bytes found.now.name.text ≡ string_bytes process.now.name) }
{
    let found = nth_process(tree, number.0)?;
    if found.name.text.as_str() == process.name.as_str() {
        Some(found)
    } else {
        None
    }
}

fn nth_process(tree: &Tree, number: u32) -> Option<&ProcessDefinition> {
    let mut left = number;
    for definition in &tree.definitions {
        let found = match definition {
            SystemDefinition::Shared(definition) => process_in(definition, &mut left),
            SystemDefinition::Block(block) => nth_in_block(&block.definitions, &mut left),
        };
        if found.is_some() {
            return found;
        }
    }
    None
}

fn nth_in_block<'t>(parts: &'t [BlockPart], left: &mut u32) -> Option<&'t ProcessDefinition> {
    for part in parts {
        if let BlockPart::Shared(definition) = part {
            let found = process_in(definition, left);
            if found.is_some() {
                return found;
            }
        }
    }
    None
}

/// The process that is defined here, if none is to be passed any more.
fn process_in<'t>(definition: &'t Definition, left: &mut u32) -> Option<&'t ProcessDefinition> {
    let Definition::Process(process) = definition else {
        return None;
    };
    if *left == 0 {
        return Some(process);
    }
    *left -= 1;
    None
}
