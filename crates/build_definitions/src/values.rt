//! Tables of synonyms, variables and formal parameters.

ghost use Rattle.std.specs.Prelude.{◌≡◌, ◌++◌, ◌+◌, None, flat_map, length, map, option_map, IfOk, OnOk};
ghost use Rattle.build_definitions.specs.Rows.{after_synonyms, after_variables, placed_synonyms, synonym_row, synonym_values, value_rows, values_of, variable_rows};
ghost use Rattle.build_definitions.specs.Seen.{synonym_seen, value_seen};
ghost use Rattle.build_definitions.specs.Sorts.{sort_at};
ghost use Rattle.build_definitions.specs.Views.{part_value, parts_listed, placed_value};
ghost use Rattle.sdl_tree.specs.Views.{expr_value, names_value, synonym_value};

use crate::enter::enter;
use crate::entries::{SynonymEntry, ValueName};
use crate::number::next_number;
use crate::part::{Part, Placed};
use crate::signals::expression_in;
use crate::sorts::sort_at;
use build_expressions::{SynonymId, ValueEntry};
use build_names::ScopeId;
use sdl_system::{Sort, VariableId};
use sdl_tree::{Expression, Name, SynonymDefinition};
use std::alloc::{AllocError, Global};

pub fn synonyms_in<'t>(
    alloc: Global,
    parts: &[Placed<'t>],
) -> Result<Vec<SynonymEntry<'t>>, AllocError>
    ensures { IfOk result (λ table. map synonym_seen table.items
        ≡ flat_map placed_synonyms (parts_listed parts.now)) }
{
    let mut table = Vec::new(alloc);
    for placed in parts {
        add_synonyms(&mut table, *placed)?;
    }
    Ok(table)
}

fn add_synonyms<'t>(table: &mut Vec<SynonymEntry<'t>>, placed: Placed<'t>) -> Result<(), AllocError>
    ensures { OnOk result (map synonym_seen table.new.items
        ≡ map synonym_seen table.old.items ++ placed_synonyms (placed_value placed.entry)) }
{
    match placed.part {
        Part::Synonyms(synonyms) => push_synonyms(table, placed.scope, synonyms),
        _ => Ok(()),
    }
}

fn push_synonyms<'t>(
    table: &mut Vec<SynonymEntry<'t>>,
    scope: ScopeId,
    synonyms: &'t [SynonymDefinition],
) -> Result<(), AllocError>
    ensures { OnOk result (map synonym_seen table.new.items
        ≡ map synonym_seen table.old.items ++ map (synonym_row scope) (map synonym_value synonyms.now)) }
{
    for definition in synonyms {
        enter(
            table,
            SynonymEntry {
                scope,
                sort: sort_at(&definition.sort),
                definition,
            },
        )?;
    }
    Ok(())
}

/// Variables, formal parameters and synonyms, by their names.
pub fn values_in<'t>(alloc: Global, parts: &[Placed<'t>]) -> Result<Vec<ValueName<'t>>, AllocError>
    ensures { IfOk result (λ table. map value_seen table.items ≡ value_rows 0 0 (parts_listed parts.now)) }
{
    let mut values = Values {
        table: Vec::new(alloc),
        synonyms: 0,
        variables: 0,
    };
    for placed in parts {
        values.add(*placed)?;
    }
    Ok(values.table)
}

/// The names so far, and how many synonyms, and variables of the process, are among them.
#[derive(Drop)]
struct Values<'t> {
    table: Vec<ValueName<'t>>,
    synonyms: u32,
    variables: u32,
}

impl<'t> Values<'t> {
    fn add(&mut self, placed: Placed<'t>) -> Result<(), AllocError>
        ensures values { OnOk result (map value_seen self.new.table.items ≡ map value_seen self.old.table.items
            ++ values_of self.old.synonyms self.old.variables placed.entry.scope (part_value placed.entry.part)) }
        ensures synonyms { OnOk result (self.new.synonyms
            ≡ after_synonyms self.old.synonyms (part_value placed.entry.part)) }
        ensures variables { OnOk result (self.new.variables
            ≡ after_variables self.old.variables (part_value placed.entry.part)) }
    {
        match placed.part {
            Part::Process { .. } => {
                self.variables = 0;
                Ok(())
            }
            Part::Synonyms(synonyms) => self.add_synonyms(placed.scope, synonyms),
            Part::Parameters(group) => {
                self.add_variables(placed.scope, sort_at(&group.sort), None, &group.names)
            }
            Part::Variables(group) => {
                let initial = expression_in(&group.initial);
                self.add_variables(placed.scope, sort_at(&group.sort), initial, &group.names)
            }
            _ => Ok(()),
        }
    }

    fn add_synonyms(
        &mut self,
        scope: ScopeId,
        synonyms: &'t [SynonymDefinition],
    ) -> Result<(), AllocError>
        ensures values { OnOk result (map value_seen self.new.table.items ≡ map value_seen self.old.table.items
            ++ synonym_values scope self.old.synonyms (map synonym_value synonyms.now)) }
        ensures synonyms { OnOk result (self.new.synonyms ≡ self.old.synonyms + length synonyms.now) }
        ensures variables { OnOk result (self.new.variables ≡ self.old.variables) }
    {
        for synonym in synonyms {
            enter(
                &mut self.table,
                ValueName {
                    scope,
                    name: &synonym.name,
                    entry: ValueEntry::Synonym {
                        number: SynonymId(self.synonyms),
                        sort: sort_at(&synonym.sort),
                    },
                    initial: None,
                },
            )?;
            self.synonyms = next_number(self.synonyms)?;
        }
        Ok(())
    }

    fn add_variables(
        &mut self,
        scope: ScopeId,
        sort: Option<Sort>,
        value: Option<&'t Expression>,
        names: &'t [Name],
    ) -> Result<(), AllocError>
        ensures values { OnOk result (map value_seen self.new.table.items ≡ map value_seen self.old.table.items
            ++ variable_rows scope sort (option_map (λ value. expr_value value.now) value.entry) self.old.variables
            (names_value names.now)) }
        ensures synonyms { OnOk result (self.new.synonyms ≡ self.old.synonyms) }
        ensures variables { OnOk result (self.new.variables ≡ self.old.variables + length names.now) }
    {
        for name in names {
            enter(
                &mut self.table,
                ValueName {
                    scope,
                    name,
                    entry: ValueEntry::Variable {
                        number: VariableId(self.variables),
                        sort,
                    },
                    initial: value,
                },
            )?;
            self.variables = next_number(self.variables)?;
        }
        Ok(())
    }
}
