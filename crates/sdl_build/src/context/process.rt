//! One process of a specification, in what stands around it.

ghost use Rattle.std.specs.Prelude.{◌≡◌, slice_get, Some, IfOk, OnOk};
ghost use Rattle.sdl_build.specs.Around.{AreKnown, context_of};
ghost use Rattle.sdl_build.specs.Processes.{IsMadeFrom};
ghost use Rattle.sdl_build.specs.Headings.{IsHeading, IsValidSet};
ghost use Rattle.sdl_build.specs.ProcessScope.{process_scope, process_scope_with};
ghost use Rattle.build_definitions.specs.Seen.{process_seen};
ghost use Rattle.build_names.specs.Labels.{names_listed};
ghost use Rattle.build_process.specs.Faulty.{NotesBody};
ghost use Rattle.build_process.specs.ProcessScope.{process_scope_of};

use crate::context::connections::Connections;
use crate::context::heading::variables_of;
use crate::context::narrow::{initial_of, maximum_of};
use crate::context::process_names::ProcessNames;
use build_constants::{ConstantTable, scope_at};
use build_definitions::{Definitions, ProcessEntry, SymbolTable};
use build_names::{Faults, ScopeId};
use build_process::{Heading, ProcessScope, make_process};
use build_routes::counted;
use build_states::NamedStates;
use sdl_system::{Process, ProcessId, SignalSet};
use std::alloc::{AllocError, Global};

/// The process of this number, with this definition and this valid input set. Noted is what is broken in its body.
pub fn process_at<'t>(
    alloc: Global,
    definitions: &Definitions<'t>,
    symbols: &SymbolTable<'_, 't>,
    constant_table: &ConstantTable,
    connections: &Connections,
    number: ProcessId,
    entry: &ProcessEntry<'t>,
    valid: SignalSet,
    faults: &mut Faults<'t>,
) -> Result<Option<Process>, AllocError>
    requires known { AreKnown definitions.now symbols.now constant_table.now connections.now }
    requires listed { slice_get (context_of definitions.now symbols.now constant_table.now
        connections.now).rows.processes number.0 ≡ Some (process_seen entry.now) }
    requires valid { IsValidSet (context_of definitions.now symbols.now constant_table.now connections.now) number
        valid }
    ensures made { IfOk result (IsMadeFrom (context_of definitions.now symbols.now constant_table.now connections.now)
        number (process_seen entry.now)) }
    ensures noted { OnOk result (NotesBody
        (process_scope (context_of definitions.now symbols.now constant_table.now connections.now) number
        (process_seen entry.now).definition)
        (process_seen entry.now).definition faults.old faults.new) }
{
    let heading = heading_of(
        alloc,
        definitions,
        symbols,
        constant_table,
        connections,
        number,
        entry,
        valid,
    )?;
    let own = ProcessNames::of(alloc, connections, number, entry.definition)?;
    let within = process_scope(
        definitions,
        symbols,
        constant_table,
        connections,
        number,
        &own,
    );
    make_process(alloc, &within, heading, entry.definition, faults)
}

/// Makes the heading of the process, with its variables.
fn heading_of<'t>(
    alloc: Global,
    definitions: &Definitions<'t>,
    symbols: &SymbolTable<'_, 't>,
    constant_table: &ConstantTable,
    connections: &Connections,
    number: ProcessId,
    entry: &ProcessEntry<'t>,
    valid: SignalSet,
) -> Result<Heading, AllocError>
    requires known { AreKnown definitions.now symbols.now constant_table.now connections.now }
    requires listed { slice_get (context_of definitions.now symbols.now constant_table.now
        connections.now).rows.processes number.0 ≡ Some (process_seen entry.now) }
    requires valid { IsValidSet (context_of definitions.now symbols.now constant_table.now connections.now) number
        valid }
    ensures { IfOk result (IsHeading (context_of definitions.now symbols.now constant_table.now connections.now) number
        (process_seen entry.now)) }
{
    let counts = constant_table
        .counts
        .get(number.0 as usize)
        .copied()
        .flatten();
    let parameters = counted(entry.sorts.len())?;
    let variables = variables_of(alloc, number, &definitions.values, &constant_table.initials)?;
    let name = String::from_str(alloc, entry.definition.name.text.as_str())?;
    Ok(Heading {
        name,
        initial: initial_of(counts),
        maximum: maximum_of(counts),
        parameters,
        variables,
        valid,
    })
}

/// Gives the meanings of the names in a process that has these of its own.
fn process_scope<'x, 's, 't>(
    definitions: &'x Definitions<'t>,
    symbols: &'x SymbolTable<'s, 't>,
    constant_table: &'x ConstantTable,
    connections: &'x Connections,
    number: ProcessId,
    own: &'x ProcessNames<'t>,
) -> ProcessScope<'x, 's, 't>
    requires known { AreKnown definitions.now symbols.now constant_table.now connections.now }
    ensures around { process_scope_of result ≡ process_scope_with
        (context_of definitions.now symbols.now constant_table.now connections.now) number own.now.states own.now.labels
        own.now.reaches.items }
    ensures names { names_listed result.states.names.now ≡ names_listed own.now.names.items }
{
    let path = definitions.path_of(ScopeId::Process(number));
    ProcessScope {
        scope: scope_at(symbols, &constant_table.constants, path),
        lists: symbols.lists.outward(path),
        members: &connections.members,
        states: NamedStates {
            names: &own.names,
            table: &own.states,
        },
        labels: &own.labels,
        reaches: &own.reaches,
        durations: &constant_table.durations,
        signals: connections.network.signals,
    }
}
