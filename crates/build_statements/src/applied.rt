//! Names with values behind them.

ghost use Rattle.std.specs.Prelude.{flat_map, map, OnOk};
ghost use Rattle.build_statements.specs.Contexts.{context_of};
ghost use Rattle.build_statements.specs.Faulty.{asked_faults, unknown_faults};
ghost use Rattle.build_names.specs.Faults.{Notes};
ghost use Rattle.sdl_tree.specs.Views.{applied_value, expr_value};

use crate::context::Context;
use build_expressions::resolve;
use build_names::{Faults, Rule, Token};
use sdl_tree::{Applied, Expression};
use std::alloc::{AllocError, Global};

/// Notes that a name stands for nothing that may stand there, and the faults of the values behind it.
pub fn note_unknown<'t>(
    alloc: Global,
    context: &Context<'_, '_, 't>,
    applied: &'t Applied,
    faults: &mut Faults<'t>,
) -> Result<(), AllocError>
    ensures { OnOk result (Notes faults.old faults.new
        (unknown_faults (context_of context.now) (applied_value applied.now).name (applied_value applied.now).values)) }
{
    faults.note(Rule::Unknown, Token::of_name(&applied.name));
    note_each(alloc, context, &applied.values, faults)
}

fn note_each<'t>(
    alloc: Global,
    context: &Context<'_, '_, 't>,
    values: &'t [Expression],
    faults: &mut Faults<'t>,
) -> Result<(), AllocError>
    ensures { OnOk result (Notes faults.old faults.new
        (flat_map (asked_faults (context_of context.now)) (map expr_value values.now))) }
{
    for value in values {
        resolve(alloc, &context.scope, value, faults)?;
    }
    Ok(())
}
