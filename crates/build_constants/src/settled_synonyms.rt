//! What the synonyms come to.

ghost use Rattle.std.specs.Prelude.{flat_map, IfOk};
ghost use Rattle.build_definitions.specs.Seen.{synonym_seen};
ghost use Rattle.build_definitions.specs.Definitions.{rows_of};
ghost use Rattle.build_constants.specs.Synonyms.{AreSynonymConstants, AreSynonyms, IsSynonym, faults_in_row};
ghost use Rattle.build_names.specs.Faults.{Notes};

use crate::synonyms::{Synonym, synonym_constants};
use build_definitions::{Definitions, SymbolTable, SynonymEntry};
use build_expressions::Constant;
use build_names::Faults;
use std::alloc::{AllocError, Global};

/// Finds the constant of each synonym, by its number. Notes the faults of their definitions.
pub fn constants_of<'t>(
    alloc: Global,
    definitions: &Definitions<'t>,
    symbols: &SymbolTable<'_, 't>,
    faults: &mut Faults<'t>,
) -> Result<Vec<Constant>, AllocError>
    ensures constants { IfOk result (λ constants.
        AreSynonymConstants (rows_of definitions.now) symbols.now constants.items) }
    ensures noted { IfOk result (λ constants. Notes faults.old faults.new
        (flat_map (faults_in_row (rows_of definitions.now) symbols.now constants.items)
        (rows_of definitions.now).synonyms)) }
{
    let synonyms = synonyms_of(alloc, definitions, symbols)?;
    synonym_constants(alloc, &synonyms, faults)
}

/// The synonyms, each with what is seen at its definition.
fn synonyms_of<'a, 's, 't>(
    alloc: Global,
    definitions: &Definitions<'t>,
    symbols: &'a SymbolTable<'s, 't>,
) -> Result<Vec<Synonym<'a, 's, 't>>, AllocError>
    ensures { IfOk result (λ synonyms. AreSynonyms (rows_of definitions.now) symbols.now synonyms.items) }
{
    let mut synonyms = Vec::new(alloc);
    for entry in &definitions.synonyms {
        synonyms.push(synonym_of(definitions, symbols, entry))?;
    }
    Ok(synonyms)
}

fn synonym_of<'a, 's, 't>(
    definitions: &Definitions<'t>,
    symbols: &'a SymbolTable<'s, 't>,
    entry: &SynonymEntry<'t>,
) -> Synonym<'a, 's, 't>
    ensures { IsSynonym symbols.now (rows_of definitions.now).processes (synonym_seen entry.now) result }
{
    let path = definitions.path_of(entry.scope);
    Synonym {
        values: symbols.values.outward(path),
        signals: symbols.signals.outward(path),
        agents: symbols.agents.outward(path),
        sort: entry.sort,
        expression: &entry.definition.value,
    }
}
