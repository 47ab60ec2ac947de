//! For how many ticks each timer is set where no time is told.

ghost use Rattle.std.specs.Prelude.{◌≡◌, flat_map, option_map, IfOk};
ghost use Rattle.build_definitions.specs.Seen.{kind_seen, signal_seen};
ghost use Rattle.build_definitions.specs.Definitions.{rows_of};
ghost use Rattle.build_constants.specs.ConstantTable.{all_durations, duration_at, duration_faults_at, duration_of};
ghost use Rattle.build_names.specs.Faults.{Notes};
ghost use Rattle.sdl_tree.specs.Views.{expr_value};

use crate::scope::scope_at;
use crate::timers::default_duration;
use build_definitions::{Definitions, SignalEntry, SignalKind, SymbolTable};
use build_expressions::Constant;
use build_names::Faults;
use sdl_tree::Expression;
use std::alloc::{AllocError, Global};

/// The default duration of each timer in ticks, by the number that it has among signals and timers. None for a signal,
/// and where none stands. Noted are the faults of these durations.
pub fn durations_of<'t>(
    alloc: Global,
    definitions: &Definitions<'t>,
    symbols: &SymbolTable<'_, 't>,
    constants: &[Constant],
    faults: &mut Faults<'t>,
) -> Result<Vec<Option<i64>>, AllocError>
    ensures durations { IfOk result (λ durations. durations.items
        ≡ all_durations (rows_of definitions.now) symbols.now constants.now) }
    ensures noted { IfOk result (λ durations. Notes faults.old faults.new
        (flat_map (duration_faults_at (rows_of definitions.now) symbols.now constants.now)
        (rows_of definitions.now).signals)) }
{
    let mut durations = Vec::new(alloc);
    for entry in &definitions.signals {
        durations.push(duration_of_entry(alloc, definitions, symbols, constants, entry, faults)?)?;
    }
    Ok(durations)
}

fn duration_of_entry<'t>(
    alloc: Global,
    definitions: &Definitions<'t>,
    symbols: &SymbolTable<'_, 't>,
    constants: &[Constant],
    entry: &SignalEntry<'t>,
    faults: &mut Faults<'t>,
) -> Result<Option<i64>, AllocError>
    ensures duration { IfOk result (λ duration. duration
        ≡ duration_at (rows_of definitions.now) symbols.now constants.now (signal_seen entry.now)) }
    ensures noted { IfOk result (λ duration. Notes faults.old faults.new
        (duration_faults_at (rows_of definitions.now) symbols.now constants.now (signal_seen entry.now))) }
{
    let scope = scope_at(symbols, constants, definitions.path_of(entry.scope));
    default_duration(alloc, &scope, duration_in_kind(entry.kind), faults)
}

fn duration_in_kind<'t>(kind: SignalKind<'t>) -> Option<&'t Expression>
    ensures { option_map (λ e. expr_value e.now) result ≡ duration_of (kind_seen kind.entry) }
{
    match kind {
        SignalKind::Signal => None,
        SignalKind::Timer { duration } => duration,
    }
}
