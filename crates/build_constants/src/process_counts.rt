//! The numbers of instances of each process.

ghost use Rattle.std.specs.Prelude.{◌≡◌, flat_map, IfOk};
ghost use Rattle.build_definitions.specs.Seen.{process_seen};
ghost use Rattle.build_definitions.specs.Definitions.{rows_of};
ghost use Rattle.build_constants.specs.ConstantTable.{all_counts, counts_at, counts_faults_at};
ghost use Rattle.build_names.specs.Faults.{Notes};

use crate::counts::{InstanceCounts, instance_counts};
use crate::scope::scope_at;
use build_definitions::{Definitions, ProcessEntry, SymbolTable};
use build_expressions::Constant;
use build_names::Faults;
use std::alloc::{AllocError, Global};

/// The numbers of instances of each process; None where a rule is broken in them, which is noted.
pub fn counts_of<'t>(
    alloc: Global,
    definitions: &Definitions<'t>,
    symbols: &SymbolTable<'_, 't>,
    constants: &[Constant],
    faults: &mut Faults<'t>,
) -> Result<Vec<Option<InstanceCounts>>, AllocError>
    ensures counts { IfOk result (λ counts. counts.items
        ≡ all_counts (rows_of definitions.now) symbols.now constants.now) }
    ensures noted { IfOk result (λ counts. Notes faults.old faults.new
        (flat_map (counts_faults_at (rows_of definitions.now) symbols.now constants.now)
        (rows_of definitions.now).processes)) }
{
    let mut counts = Vec::new(alloc);
    for entry in &definitions.processes {
        counts.push(counted(alloc, definitions, symbols, constants, entry, faults)?)?;
    }
    Ok(counts)
}

fn counted<'t>(
    alloc: Global,
    definitions: &Definitions<'t>,
    symbols: &SymbolTable<'_, 't>,
    constants: &[Constant],
    entry: &ProcessEntry<'t>,
    faults: &mut Faults<'t>,
) -> Result<Option<InstanceCounts>, AllocError>
    ensures counts { IfOk result (λ counts. counts
        ≡ counts_at (rows_of definitions.now) symbols.now constants.now (process_seen entry.now)) }
    ensures noted { IfOk result (λ counts. Notes faults.old faults.new
        (counts_faults_at (rows_of definitions.now) symbols.now constants.now (process_seen entry.now))) }
{
    let scope = scope_at(symbols, constants, definitions.path_of(entry.scope));
    instance_counts(alloc, &scope, &entry.definition.counts, faults)
}
