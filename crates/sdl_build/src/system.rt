//! The system of a specification, from its definitions on.

ghost use Rattle.std.specs.Prelude.{◌≡◌, ◌<◌, length, IfOk, OnOk};
ghost use Rattle.sdl_build.specs.Around.{AreKnown, context_of};
ghost use Rattle.sdl_build.specs.Faulty.{NotesAt, NotesBodies};
ghost use Rattle.sdl_build.specs.Headings.{IsValidSet};
ghost use Rattle.sdl_build.specs.Made.{AreMade, AreProcessesOr, IsComposed, IsComposedIf, IsMadeAt, WholeList};
ghost use Rattle.build_definitions.specs.Definitions.{rows_of};
ghost use Rattle.build_routes.specs.SignalLists.{AreSets};
ghost use Rattle.build_routes.specs.Valid.{AreValid};

use crate::context::{Connections, process_at};
use crate::defined::Defined;
use build_constants::ConstantTable;
use build_definitions::{Definitions, SymbolTable};
use build_names::Faults;
use build_routes::{counted, valid_sets};
use sdl_system::{Process, ProcessId, Routes, SignalSet, System};
use std::alloc::{AllocError, Global};

/// The system of these definitions, with these processes and routes, where the processes are there.
pub fn system_with(
    alloc: Global,
    definitions: &Definitions<'_>,
    constant_table: &ConstantTable,
    processes: Option<Vec<Process>>,
    routes: Routes,
) -> Result<Option<System>, AllocError>
    ensures { IfOk result (IsComposedIf (rows_of definitions.now) constant_table.now.durations.items processes routes) }
{
    match processes {
        None => Ok(None),
        Some(processes) => Ok(Some(system_of(
            alloc,
            definitions,
            constant_table,
            processes,
            routes,
        )?)),
    }
}

fn system_of(
    alloc: Global,
    definitions: &Definitions<'_>,
    constant_table: &ConstantTable,
    processes: Vec<Process>,
    routes: Routes,
) -> Result<System, AllocError>
    ensures { IfOk result (IsComposed (rows_of definitions.now) constant_table.now.durations.items processes routes) }
{
    let defined = Defined::of(alloc, definitions, constant_table)?;
    Ok(System::new(
        defined.signals,
        processes,
        routes,
        defined.own_signals,
        defined.process_names,
    ))
}

/// The processes; None where one means nothing. Noted is what is broken in their bodies.
pub fn processes_in<'t>(
    alloc: Global,
    definitions: &Definitions<'t>,
    symbols: &SymbolTable<'_, 't>,
    constant_table: &ConstantTable,
    connections: &Connections,
    faults: &mut Faults<'t>,
) -> Result<Option<Vec<Process>>, AllocError>
    requires known { AreKnown definitions.now symbols.now constant_table.now connections.now }
    requires sets { AreSets connections.now.network.lists.items connections.now.network.signals
        connections.now.sets }
    ensures made { IfOk result (AreProcessesOr (context_of definitions.now symbols.now constant_table.now
        connections.now)) }
    ensures noted { OnOk result (NotesBodies (context_of definitions.now symbols.now constant_table.now connections.now)
        faults.old (length (rows_of definitions.now).processes) faults.new) }
{
    let valid = valid_sets(alloc, &connections.network, &connections.sets)?;
    let made = each_process(
        alloc,
        definitions,
        symbols,
        constant_table,
        connections,
        valid,
        faults,
    )?;
    all_made(alloc, made)
}

/// Makes each process, or None if it means nothing.
fn each_process<'t>(
    alloc: Global,
    definitions: &Definitions<'t>,
    symbols: &SymbolTable<'_, 't>,
    constant_table: &ConstantTable,
    connections: &Connections,
    valid: Vec<SignalSet>,
    faults: &mut Faults<'t>,
) -> Result<Vec<Option<Process>>, AllocError>
    requires known { AreKnown definitions.now symbols.now constant_table.now connections.now }
    requires valid { AreValid connections.now.network
        (length connections.now.network.processes.items) valid.items }
    ensures size { IfOk result (λ made. length made.items ≡ length (rows_of definitions.now).processes) }
    ensures made { IfOk result (λ made. AreMade (context_of definitions.now symbols.now constant_table.now
        connections.now) made.items) }
    ensures noted { OnOk result (NotesBodies (context_of definitions.now symbols.now constant_table.now connections.now)
        faults.old (length (rows_of definitions.now).processes) faults.new) }
{
    let mut made = Vec::new(alloc);
    for set in valid {
        let place = made.len();
        let process = process_in(
            alloc,
            definitions,
            symbols,
            constant_table,
            connections,
            place,
            set,
            faults,
        )?;
        made.push(process)?;
    }
    Ok(made)
}

/// Makes the process at this place, with this valid input set. None if it means nothing.
fn process_in<'t>(
    alloc: Global,
    definitions: &Definitions<'t>,
    symbols: &SymbolTable<'_, 't>,
    constant_table: &ConstantTable,
    connections: &Connections,
    place: usize,
    valid: SignalSet,
    faults: &mut Faults<'t>,
) -> Result<Option<Process>, AllocError>
    requires known { AreKnown definitions.now symbols.now constant_table.now connections.now }
    requires within { place < length (rows_of definitions.now).processes }
    requires valid { IsValidSet (context_of definitions.now symbols.now constant_table.now connections.now)
        (record { 0 = place }) valid }
    ensures made { IfOk result (IsMadeAt (context_of definitions.now symbols.now constant_table.now connections.now)
        place) }
    ensures noted { OnOk result (NotesAt (context_of definitions.now symbols.now constant_table.now connections.now)
        place faults.old faults.new) }
{
    let number = counted(place)?;
    let entry = &definitions.processes[place];
    process_at(
        alloc,
        definitions,
        symbols,
        constant_table,
        connections,
        ProcessId(number),
        entry,
        valid,
        faults,
    )
}

/// All of them, where each is there.
fn all_made(alloc: Global, made: Vec<Option<Process>>) -> Result<Option<Vec<Process>>, AllocError>
    ensures { IfOk result (WholeList made.items) }
{
    let mut list = Vec::new(alloc);
    for process in made {
        let Some(process) = process else {
            return Ok(None);
        };
        list.push(process)?;
    }
    Ok(Some(list))
}
