//! The system of a specification, or why there is none.

ghost use Rattle.std.specs.Prelude.{◌≡◌, None, IfErr, IfOk};
ghost use Rattle.sdl_build.specs.Around.{IsConstantTable, resolved_with};
ghost use Rattle.sdl_build.specs.Built.{IsBuilt};
ghost use Rattle.sdl_build.specs.Outcome.{IsMadeBehind, IsMadeOf, IsMadeOn, IsMadeWith, IsRefusedAs, is_past_limit};
ghost use Rattle.build_definitions.specs.Definitions.{rows_of};
ghost use Rattle.build_definitions.specs.Spaces.{AreNamesOf};
ghost use Rattle.sdl_tree.specs.Views.{tree_value};

use crate::context::Connections;
use crate::error::BuildError;
use crate::system::{processes_in, system_with};
use build_constants::ConstantTable;
use build_definitions::{Definitions, SymbolTable};
use build_limits::note_limits;
use build_names::{Faults, Rule};
use sdl_system::System;
use sdl_tree::Tree;
use std::alloc::{AllocError, Global};

/// The system of a specification, where no rule is broken in it.
///
/// # Errors
///
/// `Broken` with the rule that is broken and the token at which it is: of all that are broken a limit before all else,
/// then the first in the text, at one place the rule that comes first among the rules. `Memory` where a growth was
/// refused.
pub fn build(alloc: Global, tree: &Tree) -> Result<System, BuildError>
    ensures built { IfOk result (IsBuilt (tree_value tree.now)) }
    ensures refused { IfErr result (IsRefusedAs (tree_value tree.now)) }
{
    let mut faults = Faults::new();
    let system = resolve(alloc, tree, &mut faults)?;
    if let Some(fault) = faults.first() {
        return Err(BuildError::of(alloc, fault)?);
    }
    match system {
        Some(system) => Ok(system),
        // Where no rule is broken, each process means something.
        None => unreachable!(),
    }
}

/// The system of a specification; None behind a limit, and where a process means nothing. Noted is what is broken.
fn resolve<'t>(
    alloc: Global,
    tree: &'t Tree,
    faults: &mut Faults<'t>,
) -> Result<Option<System>, AllocError>
    requires { faults.old ≡ None }
    ensures { IfOk result (IsMadeOf (tree_value tree.now) faults.new) }
{
    note_limits(alloc, tree, faults)?;
    let definitions = Definitions::of(alloc, tree, faults)?;
    look(alloc, &definitions, faults)
}

/// The system with these definitions; None behind a limit, and where a process means nothing.
fn look<'t>(
    alloc: Global,
    definitions: &Definitions<'t>,
    faults: &mut Faults<'t>,
) -> Result<Option<System>, AllocError>
    ensures { IfOk result (IsMadeWith (rows_of definitions.now) faults.old faults.new) }
{
    let symbols = SymbolTable::of(alloc, definitions, faults)?;
    look_behind_names(alloc, definitions, &symbols, faults)
}

/// The system with these definitions and names; None behind a limit, and where a process means nothing.
fn look_behind_names<'t>(
    alloc: Global,
    definitions: &Definitions<'t>,
    symbols: &SymbolTable<'_, 't>,
    faults: &mut Faults<'t>,
) -> Result<Option<System>, AllocError>
    requires { AreNamesOf (rows_of definitions.now) symbols.now }
    ensures { IfOk result (IsMadeBehind (rows_of definitions.now) faults.old faults.new) }
{
    let constant_table = ConstantTable::of(alloc, definitions, symbols, faults)?;
    if is_past_limit(faults) {
        return Ok(None);
    }
    look_on(alloc, definitions, symbols, &constant_table, faults)
}

/// The system with these definitions, names and constants; None where a process means nothing. Noted is what is broken
/// in what joins the agents, and in the processes.
fn look_on<'t>(
    alloc: Global,
    definitions: &Definitions<'t>,
    symbols: &SymbolTable<'_, 't>,
    constant_table: &ConstantTable,
    faults: &mut Faults<'t>,
) -> Result<Option<System>, AllocError>
    requires { IsConstantTable (rows_of definitions.now) symbols.now constant_table.now }
    ensures { IfOk result (IsMadeOn (resolved_with definitions.now symbols.now constant_table.now)
        faults.old faults.new) }
{
    let connections = Connections::of(alloc, definitions, symbols, faults)?;
    let processes = processes_in(
        alloc,
        definitions,
        symbols,
        constant_table,
        &connections,
        faults,
    )?;
    system_with(
        alloc,
        definitions,
        constant_table,
        processes,
        connections.routes,
    )
}

/// Whether a limit is passed. It is told before all that isn't one.
fn is_past_limit(faults: &Faults<'_>) -> bool
    ensures { result ≡ is_past_limit faults.now }
{
    match faults.first() {
        Some(fault) => fault.rule == Rule::Limit,
        None => false,
    }
}
