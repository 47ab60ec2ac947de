//! A process made of its parts.

ghost use Rattle.std.specs.Prelude.{IfOk, map};
ghost use Rattle.build_states.specs.Tabled.{names_listed, table_value};
ghost use Rattle.build_process.specs.Made.{MadeOf};

use crate::condition::whole;
use crate::heading::Heading;
use crate::process_scope::ProcessScope;
use crate::transitions::Transitions;
use build_states::{StateTables, TransitionId};
use build_tables::{TableParts, make_tables};
use sdl_system::{Expression, Process};
use std::alloc::{AllocError, Global};

/// The process with this heading, these conditions and transitions, whose states say this. None where a rule is broken
/// in a condition, or a transition has no entry.
pub(crate) fn process_of(
    alloc: Global,
    around: &ProcessScope<'_, '_, '_>,
    heading: Heading,
    said: &StateTables<'_>,
    conditions: Vec<Option<Expression>>,
    transitions: Transitions,
) -> Result<Option<Process>, AllocError>
    ensures { IfOk result (MadeOf around.now.signals (record {
      names = names_listed around.now.states.names.now;
      tables = map table_value said.now.tables.items;
      numbers = said.now.of_states.items;
      conditions = conditions.items;
    }) transitions heading) }
{
    let Some(conditions) = whole(alloc, conditions)? else {
        return Ok(None);
    };
    let Some(start) = transitions.entry(TransitionId(0)) else {
        return Ok(None);
    };
    let parts = TableParts {
        entries: &transitions.entries,
        valid: &heading.valid,
        signals: around.signals,
    };
    let Some(tables) = make_tables(alloc, parts, around.states.names, said)? else {
        return Ok(None);
    };
    Ok(Some(Process {
        name: heading.name,
        initial: heading.initial,
        maximum: heading.maximum,
        parameters: heading.parameters,
        variables: heading.variables,
        valid: heading.valid,
        states: tables.states,
        tables: tables.tables,
        conditions,
        nodes: transitions.nodes,
        start,
    }))
}
