//! The signals and timers of a system.

ghost use Rattle.std.specs.Prelude.{◌≡◌, flat_map, map, IfOk};
ghost use Rattle.sdl_build.specs.Signals.{known_sort, signal_from, signal_of, signals_from, timer_at, timer_of};
ghost use Rattle.build_definitions.specs.Seen.{kind_seen, signal_seen};

use build_definitions::{SignalEntry, SignalKind};
use build_names::ScopeId;
use sdl_system::{Signal, Sort, Timer};
use std::alloc::{AllocError, Global};

/// The signals and timers of these definitions, with the default durations of timers in ticks.
pub fn signals_of(
    alloc: Global,
    entries: &[SignalEntry<'_>],
    durations: &[Option<i64>],
) -> Result<Vec<Signal>, AllocError>
    ensures { IfOk result (λ signals. map signal_of signals.items
        ≡ signals_from (map signal_seen entries.now) durations.now) }
{
    let mut signals = Vec::new(alloc);
    for (entry, duration) in entries.iter().zip(durations) {
        signals.push(signal_from(alloc, entry, *duration)?)?;
    }
    Ok(signals)
}

fn signal_from(
    alloc: Global,
    entry: &SignalEntry<'_>,
    default: Option<i64>,
) -> Result<Signal, AllocError>
    ensures { IfOk result (λ signal. signal_of signal ≡ signal_from (signal_seen entry.now) default) }
{
    Ok(Signal {
        name: String::from_str(alloc, entry.name.text.as_str())?,
        sorts: known_sorts(alloc, &entry.sorts)?,
        timer: timer_of(entry.scope, entry.kind, default),
    })
}

/// The sorts of a signal, but for names that are no sort's.
fn known_sorts(alloc: Global, sorts: &[Option<Sort>]) -> Result<Vec<Sort>, AllocError>
    ensures { IfOk result (λ known. known.items ≡ flat_map known_sort sorts.now) }
{
    let mut known = Vec::new(alloc);
    for sort in sorts {
        if let Some(sort) = sort {
            known.push(*sort)?;
        }
    }
    Ok(known)
}

fn timer_of(scope: ScopeId, kind: SignalKind<'_>, default: Option<i64>) -> Option<Timer>
    ensures { result ≡ timer_of scope (kind_seen kind.entry) default }
{
    match kind {
        SignalKind::Signal => None,
        SignalKind::Timer { .. } => timer_at(scope, default),
    }
}

fn timer_at(scope: ScopeId, default: Option<i64>) -> Option<Timer>
    ensures { result ≡ timer_at scope default }
{
    match scope {
        ScopeId::System => None,
        ScopeId::Block(_) => None,
        ScopeId::Process(process) => Some(Timer { process, default }),
    }
}
