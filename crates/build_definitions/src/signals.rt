//! The table of signals and timers.

ghost use Rattle.std.specs.Prelude.{◌≡◌, ◌++◌, map, option_map, OnOk};
ghost use Rattle.build_definitions.specs.Rows.{placed_signals, signal_row, timer_row};
ghost use Rattle.build_definitions.specs.Seen.{signal_seen};
ghost use Rattle.build_definitions.specs.Views.{placed_value};
ghost use Rattle.sdl_tree.specs.Views.{signal_value, timer_value};

use crate::enter::enter;
use crate::entries::{SignalEntry, SignalKind};
use crate::part::{Part, Placed};
use crate::sorts::sorts_at;
use build_names::ScopeId;
use sdl_tree::{Expression, SignalDefinition, TimerDefinition};
use std::alloc::{AllocError, Global};

pub fn add_of_part<'t>(
    alloc: Global,
    table: &mut Vec<SignalEntry<'t>>,
    placed: Placed<'t>,
) -> Result<(), AllocError>
    ensures { OnOk result (map signal_seen table.new.items
        ≡ map signal_seen table.old.items ++ placed_signals (placed_value placed.entry)) }
{
    match placed.part {
        Part::Signals(signals) => add_signals(alloc, table, placed.scope, signals),
        Part::Timers(timers) => add_timers(alloc, table, placed.scope, timers),
        _ => Ok(()),
    }
}

fn add_signals<'t>(
    alloc: Global,
    table: &mut Vec<SignalEntry<'t>>,
    scope: ScopeId,
    signals: &'t [SignalDefinition],
) -> Result<(), AllocError>
    ensures { OnOk result (map signal_seen table.new.items
        ≡ map signal_seen table.old.items ++ map (signal_row scope) (map signal_value signals.now)) }
{
    for signal in signals {
        let sorts = sorts_at(alloc, &signal.sorts)?;
        enter(
            table,
            SignalEntry {
                scope,
                name: &signal.name,
                sorts,
                kind: SignalKind::Signal,
            },
        )?;
    }
    Ok(())
}

fn add_timers<'t>(
    alloc: Global,
    table: &mut Vec<SignalEntry<'t>>,
    scope: ScopeId,
    timers: &'t [TimerDefinition],
) -> Result<(), AllocError>
    ensures { OnOk result (map signal_seen table.new.items
        ≡ map signal_seen table.old.items ++ map (timer_row scope) (map timer_value timers.now)) }
{
    for timer in timers {
        let sorts = sorts_at(alloc, &timer.sorts)?;
        let duration = expression_in(&timer.duration);
        enter(
            table,
            SignalEntry {
                scope,
                name: &timer.name,
                sorts,
                kind: SignalKind::Timer { duration },
            },
        )?;
    }
    Ok(())
}

/// The expression that stands there, if one does.
pub fn expression_in(expression: &Option<Expression>) -> Option<&Expression>
    ensures { option_map (λ value. value.now) result ≡ expression.now }
{
    match expression {
        None => None,
        Some(expression) => Some(expression),
    }
}
