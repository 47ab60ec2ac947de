//! The states of a process, and the tables that they share.

ghost use Rattle.std.specs.Prelude.{◌≡◌, IfOk, IfSome, map, option_map};
ghost use Rattle.build_states.specs.Tabled.{names_listed, table_value};
ghost use Rattle.build_tables.specs.Agreeing.{TablesAgree};
ghost use Rattle.build_tables.specs.Meant.{StatesMean};
ghost use Rattle.build_tables.specs.Stated.{TablesOf, state_value, states_listed};

use crate::table::make_table;
use crate::table_parts::TableParts;
use build_states::{StateTables, Table};
use sdl_system::{State, StateTable, TableId};
use sdl_tree::Name;
use std::alloc::{AllocError, Global};

/// The states of a process, and what they do.
#[derive(Drop)]
pub struct Tables {
    /// The states, in the order in which the text first names them.
    pub states: Vec<State>,
    /// The tables of the states. States that do the same share one.
    pub tables: Vec<StateTable>,
}

/// The states of these names, and what they do. None where a transition has no entry.
///
/// A table costs a step for each signal of the system, and one for each condition and continuous signal.
pub fn make_tables(
    alloc: Global,
    parts: TableParts<'_>,
    names: &[&Name],
    said: &StateTables<'_>,
) -> Result<Option<Tables>, AllocError>
    ensures tables { IfOk result (λ made. TablesOf parts.entry.entries.now parts.entry.valid.now parts.entry.signals
        (map table_value said.now.tables.items) (option_map (λ made. made.tables.items) made)) }
    ensures states { IfOk result (λ made. IfSome made (λ made. map state_value made.states.items
        ≡ states_listed (names_listed names.now) said.now.of_states.items)) }
    ensures means { IfOk result (λ made. IfSome made (λ made. StatesMean parts.entry.entries.now parts.entry.signals
        (names_listed names.now) (map table_value said.now.tables.items) said.now.of_states.items made.states.items
        made.tables.items)) }
    ensures agree { IfOk result (λ made. IfSome made (λ made. TablesAgree parts.entry.valid.now parts.entry.signals
        (map table_value said.now.tables.items) made.tables.items)) }
{
    let Some(tables) = tables_of(alloc, parts, &said.tables)? else {
        return Ok(None);
    };
    let states = states_of(alloc, names, &said.of_states)?;
    Ok(Some(Tables { states, tables }))
}

fn tables_of(
    alloc: Global,
    parts: TableParts<'_>,
    said: &[Table<'_>],
) -> Result<Option<Vec<StateTable>>, AllocError>
    ensures { IfOk result (λ made. TablesOf parts.entry.entries.now parts.entry.valid.now parts.entry.signals
        (map table_value said.now) (option_map (λ made. made.items) made)) }
{
    let mut tables = Vec::new(alloc);
    for one in said {
        let Some(table) = make_table(alloc, parts, one)? else {
            return Ok(None);
        };
        tables.push(table)?;
    }
    Ok(Some(tables))
}

/// The states of these names, each with its table.
fn states_of(
    alloc: Global,
    names: &[&Name],
    of_states: &[TableId],
) -> Result<Vec<State>, AllocError>
    ensures { IfOk result (λ states. map state_value states.items
        ≡ states_listed (names_listed names.now) of_states.now) }
{
    let mut states = Vec::new(alloc);
    for (name, table) in names.iter().zip(of_states) {
        states.push(State {
            name: String::from_str(alloc, name.text.as_str())?,
            table: *table,
        })?;
    }
    Ok(states)
}
