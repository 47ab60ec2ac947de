//! Timers that are set and reset (Z.102: set, reset).

ghost use Rattle.std.specs.Prelude.{◌≡◌, ◌++◌, flat_map, map, option_and_then, option_map, IfOk, OnOk};
ghost use Rattle.build_statements.specs.Contexts.{context_of};
ghost use Rattle.build_statements.specs.Faulty.{default_faults, lacks_default, setting_faults, time_faults, timing_faults};
ghost use Rattle.build_statements.specs.Statements.{default_of, reset_in, set_for, set_in, setting_in, timed, timing_in, when_in};
ghost use Rattle.build_names.specs.Faults.{Notes, fault_if};
ghost use Rattle.build_names.specs.declared.faults.fault.Rule.TheVariants.{Sort};
ghost use Rattle.build_expressions.specs.Partial.{all_some, both};
ghost use Rattle.build_expressions.specs.Scope.{signal_in};
ghost use Rattle.sdl_system.specs.Body.{after, at, reset, set};
ghost use Rattle.sdl_system.specs.Table.{action_of, setting, timing, when_due};
ghost use Rattle.sdl_system.specs.Term.{term_of};
ghost use Rattle.sdl_tree.specs.Views.{applied_value, clause_value, expr_value, group_value, name_value};

use crate::applied::note_unknown;
use crate::context::Context;
use crate::list::all_there;
use build_expressions::{SignalMeaning, resolve_for, resolve_values};
use build_names::{Faults, Rule, Token};
use port_model::SignalId;
use sdl_system::{Due, Setting, Statement, TimerUse};
use sdl_tree::{Applied, Expression, Name, ResetGroup, SetClause};
use std::alloc::{AllocError, Global};

/// The timers that are set, each with when it is due: at the time that is written, or after its default duration.
/// Noted are, for each, the faults of the time, with `Sort` at its first token where it is no Time; `Unknown` at the
/// name of no timer; `Sort` there where no time is written and the timer has no default duration; and the faults of
/// its values.
pub fn resolve_set<'t>(
    alloc: Global,
    context: &Context<'_, '_, 't>,
    clauses: &'t [SetClause],
    faults: &mut Faults<'t>,
) -> Result<Option<Statement>, AllocError>
    ensures set { IfOk result (λ found. option_and_then action_of found
        ≡ set_in (context_of context.now) (map clause_value clauses.now)) }
    ensures noted { OnOk result (Notes faults.old faults.new
        (flat_map (setting_faults (context_of context.now)) (map clause_value clauses.now))) }
{
    let list = resolve_settings(alloc, context, clauses, faults)?;
    Ok(set(list))
}

fn set(list: Option<Vec<Setting>>) -> Option<Statement>
    ensures { option_and_then action_of result
        ≡ option_map set (option_map (λ list. map setting list.items) list) }
{
    match list {
        None => None,
        Some(list) => Some(Statement::Set(list)),
    }
}

fn resolve_settings<'t>(
    alloc: Global,
    context: &Context<'_, '_, 't>,
    clauses: &'t [SetClause],
    faults: &mut Faults<'t>,
) -> Result<Option<Vec<Setting>>, AllocError>
    ensures settings { IfOk result (λ found. option_map (λ list. map setting list.items) found
        ≡ all_some (map (setting_in (context_of context.now)) (map clause_value clauses.now))) }
    ensures noted { OnOk result (Notes faults.old faults.new
        (flat_map (setting_faults (context_of context.now)) (map clause_value clauses.now))) }
{
    let mut found = Vec::new(alloc);
    for clause in clauses {
        found.push(resolve_clause(alloc, context, clause, faults)?)?;
    }
    all_there(alloc, found)
}

fn resolve_clause<'t>(
    alloc: Global,
    context: &Context<'_, '_, 't>,
    clause: &'t SetClause,
    faults: &mut Faults<'t>,
) -> Result<Option<Setting>, AllocError>
    ensures setting { IfOk result (λ found. option_map setting found
        ≡ setting_in (context_of context.now) (clause_value clause.now)) }
    ensures noted { OnOk result (Notes faults.old faults.new
        (setting_faults (context_of context.now) (clause_value clause.now))) }
{
    let due = resolve_due(alloc, context, &clause.timer.name, &clause.time, faults)?;
    let timer = resolve_timer(alloc, context, &clause.timer, faults)?;
    Ok(set_for(timer, due))
}

fn set_for(timer: Option<TimerUse>, due: Option<Due>) -> Option<Setting>
    ensures { option_map setting result ≡ both set_for (option_map timing timer) (option_map when_due due) }
{
    match (timer, due) {
        (Some(timer), Some(due)) => Some(Setting { timer, due }),
        _ => None,
    }
}

/// When the timer of this name is due. A timer without a time and without a default duration is noted.
fn resolve_due<'t>(
    alloc: Global,
    context: &Context<'_, '_, 't>,
    name: &'t Name,
    time: &'t Option<Expression>,
    faults: &mut Faults<'t>,
) -> Result<Option<Due>, AllocError>
    ensures due { IfOk result (λ found. option_map when_due found
        ≡ when_in (context_of context.now) (name_value name.now) (option_map expr_value time.now)) }
    ensures noted { OnOk result (Notes faults.old faults.new
        (time_faults (context_of context.now) (option_map expr_value time.now)
        ++ default_faults (context_of context.now) (name_value name.now) (option_map expr_value time.now))) }
{
    match time {
        None => Ok(resolve_default(context, name, faults)),
        Some(time) => {
            let time = resolve_for(
                alloc,
                &context.scope,
                time,
                Some(sdl_system::Sort::Time),
                faults,
            )?;
            Ok(due_at(time))
        }
    }
}

fn due_at(time: Option<sdl_system::Expression>) -> Option<Due>
    ensures { option_map when_due result ≡ option_map at (option_map term_of time) }
{
    match time {
        None => None,
        Some(time) => Some(Due::At(time)),
    }
}

/// The default duration of the timer of this name. A timer without one is noted.
fn resolve_default<'t>(
    context: &Context<'_, '_, 't>,
    name: &'t Name,
    faults: &mut Faults<'t>,
) -> Option<Due>
    ensures due { option_map when_due result ≡ option_map after (default_of (context_of context.now)
        (signal_in (context_of context.now).scope (name_value name.now).text)) }
    ensures noted { Notes faults.old faults.new
        (fault_if (lacks_default (signal_in (context_of context.now).scope (name_value name.now).text)) Sort
        (name_value name.now)) }
{
    let Some(
        SignalMeaning::Timer {
            number,
            has_default,
            ..
        },
    ) = context.scope.signal(&name.text)
    else {
        return None;
    };
    if !has_default {
        faults.note(Rule::Sort, Token::of_name(name));
    }
    due_after(context.duration(number))
}

fn due_after(ticks: Option<i64>) -> Option<Due>
    ensures { option_map when_due result ≡ option_map after ticks }
{
    match ticks {
        None => None,
        Some(ticks) => Some(Due::After(ticks)),
    }
}

/// The timers that are reset. Noted are, for each, `Unknown` at the name of no timer, and the faults of its values.
pub fn resolve_reset<'t>(
    alloc: Global,
    context: &Context<'_, '_, 't>,
    groups: &'t [ResetGroup],
    faults: &mut Faults<'t>,
) -> Result<Option<Statement>, AllocError>
    ensures reset { IfOk result (λ found. option_and_then action_of found
        ≡ reset_in (context_of context.now) (map group_value groups.now)) }
    ensures noted { OnOk result (Notes faults.old faults.new
        (flat_map (flat_map (timing_faults (context_of context.now))) (map group_value groups.now))) }
{
    let list = resolve_timers(alloc, context, groups, faults)?;
    Ok(reset(list))
}

fn reset(list: Option<Vec<TimerUse>>) -> Option<Statement>
    ensures { option_and_then action_of result
        ≡ option_map reset (option_map (λ list. map timing list.items) list) }
{
    match list {
        None => None,
        Some(list) => Some(Statement::Reset(list)),
    }
}

fn resolve_timers<'t>(
    alloc: Global,
    context: &Context<'_, '_, 't>,
    groups: &'t [ResetGroup],
    faults: &mut Faults<'t>,
) -> Result<Option<Vec<TimerUse>>, AllocError>
    ensures timers { IfOk result (λ found. option_map (λ list. map timing list.items) found
        ≡ all_some (flat_map (map (timing_in (context_of context.now))) (map group_value groups.now))) }
    ensures noted { OnOk result (Notes faults.old faults.new
        (flat_map (flat_map (timing_faults (context_of context.now))) (map group_value groups.now))) }
{
    let mut found = Vec::new(alloc);
    for group in groups {
        resolve_group(alloc, context, &group.timers, &mut found, faults)?;
    }
    all_there(alloc, found)
}

/// Adds the timers of one pair of parentheses.
fn resolve_group<'t>(
    alloc: Global,
    context: &Context<'_, '_, 't>,
    timers: &'t [Applied],
    found: &mut Vec<Option<TimerUse>>,
    faults: &mut Faults<'t>,
) -> Result<(), AllocError>
    ensures timers { OnOk result (map (option_map timing) found.new.items ≡ map (option_map timing) found.old.items
        ++ map (timing_in (context_of context.now)) (map applied_value timers.now)) }
    ensures noted { OnOk result (Notes faults.old faults.new
        (flat_map (timing_faults (context_of context.now)) (map applied_value timers.now))) }
{
    for applied in timers {
        found.push(resolve_timer(alloc, context, applied, faults)?)?;
    }
    Ok(())
}

fn resolve_timer<'t>(
    alloc: Global,
    context: &Context<'_, '_, 't>,
    applied: &'t Applied,
    faults: &mut Faults<'t>,
) -> Result<Option<TimerUse>, AllocError>
    ensures timer { IfOk result (λ found. option_map timing found
        ≡ timing_in (context_of context.now) (applied_value applied.now)) }
    ensures noted { OnOk result (Notes faults.old faults.new
        (timing_faults (context_of context.now) (applied_value applied.now))) }
{
    let Some(SignalMeaning::Timer { number, sorts, .. }) = context.scope.signal(&applied.name.text)
    else {
        note_unknown(alloc, context, applied, faults)?;
        return Ok(None);
    };
    let values = resolve_values(
        alloc,
        &context.scope,
        &applied.name,
        &applied.values,
        sorts,
        faults,
    )?;
    Ok(timed(number, values))
}

fn timed(timer: SignalId, values: Option<Vec<sdl_system::Expression>>) -> Option<TimerUse>
    ensures { option_map timing result ≡ option_map (timed timer) (option_map (λ list. map term_of list.items) values) }
{
    match values {
        None => None,
        Some(values) => Some(TimerUse { timer, values }),
    }
}
