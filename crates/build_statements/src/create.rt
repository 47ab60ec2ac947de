//! Instances that are made (Z.102: create).

ghost use Rattle.std.specs.Prelude.{◌≡◌, map, option_and_then, option_map, IfOk, OnOk};
ghost use Rattle.build_statements.specs.Contexts.{context_of};
ghost use Rattle.build_statements.specs.Faulty.{create_faults};
ghost use Rattle.build_statements.specs.Statements.{create_in};
ghost use Rattle.build_names.specs.Faults.{Notes};
ghost use Rattle.sdl_system.specs.Body.{create};
ghost use Rattle.sdl_system.specs.Table.{action_of};
ghost use Rattle.sdl_system.specs.Term.{term_of};
ghost use Rattle.sdl_tree.specs.Views.{applied_value};

use crate::applied::note_unknown;
use crate::context::Context;
use build_expressions::{AgentMeaning, resolve_values};
use build_names::Faults;
use sdl_system::{Creation, Expression, ProcessId, Statement};
use sdl_tree::Applied;
use std::alloc::{AllocError, Global};

/// The process of which an instance is made, with the values of its formal parameters. Noted are `Unknown` at the
/// name of no process, and the faults of the values.
pub fn resolve_create<'t>(
    alloc: Global,
    context: &Context<'_, '_, 't>,
    applied: &'t Applied,
    faults: &mut Faults<'t>,
) -> Result<Option<Statement>, AllocError>
    ensures create { IfOk result (λ found. option_and_then action_of found
        ≡ create_in (context_of context.now) (applied_value applied.now)) }
    ensures noted { OnOk result (Notes faults.old faults.new
        (create_faults (context_of context.now) (applied_value applied.now))) }
{
    let Some(AgentMeaning::Process { number, sorts }) = context.scope.agent(&applied.name.text)
    else {
        note_unknown(alloc, context, applied, faults)?;
        return Ok(None);
    };
    let values = resolve_values(
        alloc,
        &context.scope,
        &applied.name,
        &applied.values,
        sorts,
        faults,
    )?;
    Ok(created(number, values))
}

fn created(process: ProcessId, values: Option<Vec<Expression>>) -> Option<Statement>
    ensures { option_and_then action_of result
        ≡ option_map (create process) (option_map (λ list. map term_of list.items) values) }
{
    match values {
        None => None,
        Some(values) => Some(Statement::Create(Creation { process, values })),
    }
}
