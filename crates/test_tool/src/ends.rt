//! How far joins are followed.

use build_flow::note_stays;
use build_names::{Faults, Rule};
use sdl_parse::parse;
use sdl_tree::{Definition, ProcessDefinition, SystemDefinition, Tree};
use std::alloc::{AllocError, Global};
use std::test::Fail;

fn process(tree: &Tree) -> Option<&ProcessDefinition> {
    match tree.definitions.first() {
        Some(SystemDefinition::Shared(Definition::Process(process))) => Some(process),
        _ => None,
    }
}

/// The column of the first `-` that the start can reach, in a text of one line.
fn no_state(alloc: Global, text: &str) -> Result<Option<usize>, Fail> {
    let tree = parse(alloc, text.as_bytes())?;
    match process(&tree) {
        Some(process) => Ok(first_stay(alloc, process)?),
        None => Ok(None),
    }
}

/// The column of the first `-` that the start of a process can reach.
fn first_stay(alloc: Global, process: &ProcessDefinition) -> Result<Option<usize>, AllocError> {
    let mut faults = Faults::new();
    note_stays(alloc, process, &mut faults)?;
    match faults.first() {
        Some(fault) if fault.rule == Rule::NoState => Ok(Some(fault.token.place.column)),
        _ => Ok(None),
    }
}

/// A specification whose joins lead back from each of so many labels to the one before, and from the first to a `-`.
fn joins(alloc: Global, most: usize) -> Result<String, AllocError> {
    let mut text = format!(in alloc;
        "system S; process P; start; join l{most}; connection l0: nextstate -; endconnection; "
    )?;
    for number in 0..most {
        let next = number + 1;
        write!(text, "connection l{next}: join l{number}; endconnection; ")?;
    }
    text.push_str("endprocess; endsystem;")?;
    Ok(text)
}

/// A search that went over such a text once for each label would do so twenty thousand times.
#[test]
fn follows_many_joins_back(rt: HostRuntime) -> Result<(), Fail> {
    let text = joins(rt.alloc(), 20_000)?;
    let wanted = text.as_str().find("-").map(|place| place + 1);
    assert!(rt; no_state(rt.alloc(), text.as_str())? == wanted);
    Ok(())
}
