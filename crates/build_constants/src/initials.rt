//! What each variable begins with.

ghost use Rattle.std.specs.Prelude.{◌≡◌, flat_map, IfOk};
ghost use Rattle.build_definitions.specs.Seen.{value_seen};
ghost use Rattle.build_definitions.specs.Definitions.{rows_of};
ghost use Rattle.build_constants.specs.ConstantTable.{all_initials, initial_at, initial_faults_at, sort_of_entry};
ghost use Rattle.build_names.specs.Faults.{Notes};

use crate::scope::scope_at;
use crate::variables::initial_value;
use build_definitions::{Definitions, SymbolTable, ValueName};
use build_expressions::{Constant, ValueEntry};
use build_names::Faults;
use sdl_system::Sort;
use std::alloc::{AllocError, Global};

/// Finds the initial value of each variable, by its place among all variables, formal parameters and synonyms. None if
/// no initial value stands. Notes the faults of these values.
pub fn initials_of<'t>(
    alloc: Global,
    definitions: &Definitions<'t>,
    symbols: &SymbolTable<'_, 't>,
    constants: &[Constant],
    faults: &mut Faults<'t>,
) -> Result<Vec<Option<Constant>>, AllocError>
    ensures values { IfOk result (λ values. values.items
        ≡ all_initials (rows_of definitions.now) symbols.now constants.now) }
    ensures noted { IfOk result (λ values. Notes faults.old faults.new
        (flat_map (initial_faults_at (rows_of definitions.now) symbols.now constants.now)
        (rows_of definitions.now).values)) }
{
    let mut values = Vec::new(alloc);
    for entry in &definitions.values {
        values.push(initial_of(alloc, definitions, symbols, constants, entry, faults)?)?;
    }
    Ok(values)
}

fn initial_of<'t>(
    alloc: Global,
    definitions: &Definitions<'t>,
    symbols: &SymbolTable<'_, 't>,
    constants: &[Constant],
    entry: &ValueName<'t>,
    faults: &mut Faults<'t>,
) -> Result<Option<Constant>, AllocError>
    ensures value { IfOk result (λ value. value
        ≡ initial_at (rows_of definitions.now) symbols.now constants.now (value_seen entry.now)) }
    ensures noted { IfOk result (λ value. Notes faults.old faults.new
        (initial_faults_at (rows_of definitions.now) symbols.now constants.now (value_seen entry.now))) }
{
    let scope = scope_at(symbols, constants, definitions.path_of(entry.scope));
    initial_value(
        alloc,
        &scope,
        sort_of_entry(entry.entry),
        entry.initial,
        faults,
    )
}

fn sort_of_entry(entry: ValueEntry) -> Option<Sort>
    ensures { result ≡ sort_of_entry entry }
{
    match entry {
        ValueEntry::Variable { sort, .. } => sort,
        ValueEntry::Synonym { sort, .. } => sort,
    }
}
