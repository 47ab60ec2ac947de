//! Names of signals and timers.

ghost use Rattle.std.specs.Prelude.{◌≡◌, map, IfOk};
ghost use Rattle.build_definitions.specs.Seen.{kind_seen, signal_seen};
ghost use Rattle.build_definitions.specs.Definitions.{rows_of};
ghost use Rattle.build_definitions.specs.Entries.{HasMeant, duplicates, entry_seen, standings};
ghost use Rattle.build_definitions.specs.Meanings.{signal_entries, signal_means, signals_from};
ghost use Rattle.build_names.specs.Faults.{Notes};
ghost use Rattle.build_expressions.specs.Scope.{signal_meaning};

use crate::definitions::Definitions;
use crate::entries::{SignalEntry, SignalKind};
use crate::number::next_number;
use crate::symbols::declaration::{Declaration, add, declare_all};
use build_expressions::SignalMeaning;
use build_names::{Faults, Spaces};
use port_model::SignalId;
use sdl_system::Sort;
use std::alloc::{AllocError, Global};

/// The names of signals and timers, by their scopes.
pub fn declare_signals<'s, 't>(
    alloc: Global,
    definitions: &'s Definitions<'t>,
    faults: &mut Faults<'t>,
) -> Result<Spaces<'t, SignalMeaning<'s>>, AllocError>
    ensures spaces { IfOk result (λ spaces. HasMeant signal_meaning spaces (signal_entries (rows_of definitions.now))) }
    ensures noted { IfOk result (λ spaces. Notes faults.old faults.new
        (duplicates (standings (signal_entries (rows_of definitions.now))))) }
{
    let declarations = signal_declarations(alloc, &definitions.signals)?;
    declare_all(alloc, &declarations, faults)
}

fn signal_declarations<'s, 't>(
    alloc: Global,
    table: &'s [SignalEntry<'t>],
) -> Result<Vec<Declaration<'t, SignalMeaning<'s>>>, AllocError>
    ensures { IfOk result (λ declarations. map (entry_seen signal_meaning) declarations.items
        ≡ signals_from 0 (map signal_seen table.now)) }
{
    let mut declarations = Vec::new(alloc);
    let mut next = 0;
    for entry in table {
        add(
            &mut declarations,
            Declaration {
                scope: entry.scope,
                name: entry.name,
                what: meaning_of(SignalId(next), &entry.sorts, entry.kind),
            },
        )?;
        next = next_number(next)?;
    }
    Ok(declarations)
}

/// Gives the meaning of the signal or the timer of this number.
fn meaning_of<'s>(
    number: SignalId,
    sorts: &'s [Option<Sort>],
    kind: SignalKind<'_>,
) -> SignalMeaning<'s>
    ensures { signal_meaning result ≡ signal_means number.0 sorts.now (kind_seen kind.entry) }
{
    match kind {
        SignalKind::Signal => SignalMeaning::Signal { number, sorts },
        SignalKind::Timer { duration } => SignalMeaning::Timer {
            number,
            sorts,
            has_default: duration.is_some(),
        },
    }
}
