//! What the states of one table do.

ghost use Rattle.std.specs.Prelude.{◌≡◌, IfOk, map};
ghost use Rattle.build_states.specs.Tabled.{table_value};
ghost use Rattle.build_tables.specs.Linked.{AreClasses, TableOf, enabling_value, waits_for};

use crate::condition::conditions_of;
use crate::continuous::continuous_of;
use crate::reactions::{reactions_of, rest_of};
use crate::selection::selection_of;
use crate::table_parts::TableParts;
use build_states::Table;
use sdl_system::{ConditionId, Continuous, Reaction, Reactions, StateTable};
use std::alloc::{AllocError, Global};

/// Makes the table of the states that say this. None if a transition has no entry.
pub fn make_table(
    alloc: Global,
    parts: TableParts<'_>,
    said: &Table<'_>,
) -> Result<Option<StateTable>, AllocError>
    ensures { IfOk result (TableOf parts.entry.entries.now parts.entry.valid.now parts.entry.signals
        (table_value said.now)) }
{
    let Some(reactions) = reactions_of(alloc, parts, &said.answers.named)? else {
        return Ok(None);
    };
    let Some(rest) = rest_of(alloc, parts.entries, said.answers.rest)? else {
        return Ok(None);
    };
    let Some(continuous) = continuous_of(alloc, parts.entries, &said.continuous)? else {
        return Ok(None);
    };
    let table = table_with(alloc, parts, reactions, rest, continuous, &said.enabling)?;
    Ok(Some(table))
}

/// The table in which this is done with the signals that are named, with the others, and by continuous signals.
fn table_with(
    alloc: Global,
    parts: TableParts<'_>,
    reactions: Reactions,
    rest: Option<Reaction>,
    continuous: Vec<Continuous>,
    enabling: &[ConditionId],
) -> Result<StateTable, AllocError>
    ensures classes { IfOk result (λ table. AreClasses parts.entry.signals parts.entry.valid.now reactions rest
        table.selection) }
    ensures conditions { IfOk result (λ table. map enabling_value table.conditions.items
        ≡ map (waits_for reactions parts.entry.signals rest) enabling.now) }
    ensures reactions { IfOk result (λ table. table.reactions ≡ reactions) }
    ensures rest { IfOk result (λ table. table.rest ≡ rest) }
    ensures continuous { IfOk result (λ table. table.continuous ≡ continuous) }
{
    let selection = selection_of(alloc, parts, &reactions, rest.as_ref())?;
    let conditions = conditions_of(alloc, parts.signals, &reactions, rest.as_ref(), enabling)?;
    Ok(StateTable {
        selection,
        reactions,
        rest,
        conditions,
        continuous,
    })
}
