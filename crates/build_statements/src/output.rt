//! Signals that are sent, and where to (Z.102: output).

ghost use Rattle.std.specs.Prelude.{◌≡◌, flat_map, map, option_and_then, option_map, IfOk, OnOk};
ghost use Rattle.build_statements.specs.Contexts.{context_of};
ghost use Rattle.build_statements.specs.Faulty.{destination_faults, is_lost, output_faults, process_faults, sending_faults, whither_faults};
ghost use Rattle.build_statements.specs.Statements.{agent_name, output_in, process_of, sending_in, sent_to, sent, whither_in};
ghost use Rattle.build_names.specs.Faults.{Notes, fault_if};
ghost use Rattle.build_names.specs.declared.faults.fault.Rule.TheVariants.{NoRoute};
ghost use Rattle.build_expressions.specs.Partial.{all_some, both};
ghost use Rattle.build_expressions.specs.Scope.{agent_in};
ghost use Rattle.sdl_system.specs.Body.{output, to_pid};
ghost use Rattle.sdl_system.specs.Term.{term_of};
ghost use Rattle.sdl_system.specs.Table.{action_of, sending, whither_of as whither_view};
ghost use Rattle.sdl_tree.specs.Tree.{Named};
ghost use Rattle.sdl_tree.specs.Views.{applied_value, destination_value, expr_value, name_value};

use crate::applied::note_unknown;
use crate::context::Context;
use crate::list::all_there;
use build_expressions::{AgentMeaning, SignalMeaning, resolve_for, resolve_values};
use build_names::{Faults, Rule, Token};
use port_model::SignalId;
use sdl_system::{Output, Sending, Sort, Statement};
use sdl_tree::{Applied, Destination, Expression, Name};
use std::alloc::{AllocError, Global};

/// An output: its signals with their values, and its destination. Noted are, for each signal, `Unknown` at the name
/// of none, `NoRoute` there where the output has no destination and no path leads the signal to a receiver, and the
/// faults of its values; and of the destination `Unknown` at a name that is neither a process nor a value's, else its
/// faults, with `Sort` at its first token where it is no Pid.
pub fn resolve_output<'t>(
    alloc: Global,
    context: &Context<'_, '_, 't>,
    outputs: &'t [Applied],
    destination: &'t Option<Destination>,
    faults: &mut Faults<'t>,
) -> Result<Option<Statement>, AllocError>
    ensures output { IfOk result (λ found. option_and_then action_of found
        ≡ output_in (context_of context.now) (map applied_value outputs.now)
        (option_map destination_value destination.now)) }
    ensures noted { OnOk result (Notes faults.old faults.new
        (output_faults (context_of context.now) (map applied_value outputs.now)
        (option_map destination_value destination.now))) }
{
    let signals = resolve_signals(alloc, context, outputs, destination.is_some(), faults)?;
    let to = resolve_destination(alloc, context, destination, faults)?;
    Ok(output(signals, to))
}

fn output(
    signals: Option<Vec<Sending>>,
    to: Option<Option<sdl_system::Destination>>,
) -> Option<Statement>
    ensures { option_and_then action_of result
        ≡ both output (option_map (λ list. map sending list.items) signals) (option_map (option_map whither_view) to) }
{
    match (signals, to) {
        (Some(signals), Some(to)) => Some(Statement::Output(Output { signals, to })),
        _ => None,
    }
}

fn resolve_signals<'t>(
    alloc: Global,
    context: &Context<'_, '_, 't>,
    outputs: &'t [Applied],
    has_destination: bool,
    faults: &mut Faults<'t>,
) -> Result<Option<Vec<Sending>>, AllocError>
    ensures signals { IfOk result (λ found. option_map (λ list. map sending list.items) found
        ≡ all_some (map (sending_in (context_of context.now)) (map applied_value outputs.now))) }
    ensures noted { OnOk result (Notes faults.old faults.new
        (flat_map (sending_faults (context_of context.now) has_destination) (map applied_value outputs.now))) }
{
    let mut found = Vec::new(alloc);
    for applied in outputs {
        found.push(resolve_signal(alloc, context, applied, has_destination, faults)?)?;
    }
    all_there(alloc, found)
}

fn resolve_signal<'t>(
    alloc: Global,
    context: &Context<'_, '_, 't>,
    applied: &'t Applied,
    has_destination: bool,
    faults: &mut Faults<'t>,
) -> Result<Option<Sending>, AllocError>
    ensures signal { IfOk result (λ found. option_map sending found
        ≡ sending_in (context_of context.now) (applied_value applied.now)) }
    ensures noted { OnOk result (Notes faults.old faults.new
        (sending_faults (context_of context.now) has_destination (applied_value applied.now))) }
{
    let Some(SignalMeaning::Signal { number, sorts }) = context.scope.signal(&applied.name.text)
    else {
        note_unknown(alloc, context, applied, faults)?;
        return Ok(None);
    };
    note_lost(context, has_destination, number, &applied.name, faults);
    let values = resolve_values(
        alloc,
        &context.scope,
        &applied.name,
        &applied.values,
        sorts,
        faults,
    )?;
    Ok(sent(number, values))
}

fn sent(signal: SignalId, values: Option<Vec<sdl_system::Expression>>) -> Option<Sending>
    ensures { option_map sending result
        ≡ option_map (sent signal) (option_map (λ list. map term_of list.items) values) }
{
    match values {
        None => None,
        Some(values) => Some(Sending { signal, values }),
    }
}

/// Notes a signal that gets nowhere.
fn note_lost<'t>(
    context: &Context<'_, '_, 't>,
    has_destination: bool,
    signal: SignalId,
    name: &'t Name,
    faults: &mut Faults<'t>,
)
    ensures { Notes faults.old faults.new
        (fault_if (is_lost (context_of context.now) has_destination signal) NoRoute (name_value name.now)) }
{
    if !has_destination && !context.is_reaching(signal) {
        faults.note(Rule::NoRoute, Token::of_name(name));
    }
}

fn resolve_destination<'t>(
    alloc: Global,
    context: &Context<'_, '_, 't>,
    destination: &'t Option<Destination>,
    faults: &mut Faults<'t>,
) -> Result<Option<Option<sdl_system::Destination>>, AllocError>
    ensures to { IfOk result (λ found. option_map (option_map whither_view) found
        ≡ sent_to (context_of context.now) (option_map destination_value destination.now)) }
    ensures noted { OnOk result (Notes faults.old faults.new
        (destination_faults (context_of context.now) (option_map destination_value destination.now))) }
{
    match destination {
        None => Ok(Some(None)),
        Some(destination) => {
            let to = resolve_whither(alloc, context, &destination.value, faults)?;
            Ok(to.map(Some))
        }
    }
}

fn resolve_whither<'t>(
    alloc: Global,
    context: &Context<'_, '_, 't>,
    value: &'t Expression,
    faults: &mut Faults<'t>,
) -> Result<Option<sdl_system::Destination>, AllocError>
    ensures to { IfOk result (λ found. option_map whither_view found
        ≡ whither_in (context_of context.now) (expr_value value.now)) }
    ensures noted { OnOk result (Notes faults.old faults.new
        (whither_faults (context_of context.now) (expr_value value.now)
        (agent_name (context_of context.now).scope (expr_value value.now)))) }
{
    match agent_name(context, value) {
        Some(name) => Ok(resolve_process(context, name, faults)),
        None => {
            let pid = resolve_for(alloc, &context.scope, value, Some(Sort::Pid), faults)?;
            Ok(to_pid(pid))
        }
    }
}

/// The name alone that stands there, where no value has it.
fn agent_name<'t>(context: &Context<'_, '_, '_>, value: &'t Expression) -> Option<&'t Name>
    ensures { option_map (λ name. name_value name.now) result
        ≡ agent_name (context_of context.now).scope (expr_value value.now) }
{
    match value {
        Expression::Name(name) => without_value(context, name),
        Expression::Number(_) => None,
        Expression::Keyword { .. } => None,
        Expression::Active { .. } => None,
        Expression::Parenthesized { .. } => None,
        Expression::Unary { .. } => None,
        Expression::Chain(_) => None,
    }
}

/// The name, where no variable and no synonym has it.
fn without_value<'t>(context: &Context<'_, '_, '_>, name: &'t Name) -> Option<&'t Name>
    ensures { option_map (λ name. name_value name.now) result
        ≡ agent_name (context_of context.now).scope (Named (name_value name.now)) }
{
    if context.scope.value(&name.text).is_none() {
        Some(name)
    } else {
        None
    }
}

fn to_pid(pid: Option<sdl_system::Expression>) -> Option<sdl_system::Destination>
    ensures { option_map whither_view result ≡ option_map to_pid (option_map term_of pid) }
{
    match pid {
        None => None,
        Some(pid) => Some(sdl_system::Destination::Pid(pid)),
    }
}

/// The process of this name. A name of none is noted.
fn resolve_process<'t>(
    context: &Context<'_, '_, 't>,
    name: &'t Name,
    faults: &mut Faults<'t>,
) -> Option<sdl_system::Destination>
    ensures to { option_map whither_view result
        ≡ process_of (agent_in (context_of context.now).scope (name_value name.now).text) }
    ensures noted { Notes faults.old faults.new
        (process_faults (name_value name.now) (agent_in (context_of context.now).scope (name_value name.now).text)) }
{
    let Some(AgentMeaning::Process { number, .. }) = context.scope.agent(&name.text) else {
        faults.note(Rule::Unknown, Token::of_name(name));
        return None;
    };
    Some(sdl_system::Destination::Process(number))
}
