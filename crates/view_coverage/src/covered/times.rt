//! How often an item was covered.

ghost use Rattle.std.specs.Prelude.{◌≡◌, ◌+◌, IfOk};
ghost use Rattle.view_coverage.specs.Sections.{awaited_times, is_named, rest_from, times_of, unnamed_times};

use crate::counts::Counts;
use crate::covered::section::Material;
use crate::goals::Awaited;
use crate::point::{Passage, Point};
use build_definitions::next_number;
use port_model::SignalId;
use sdl_system::{ProcessId, StateId, System};
use std::alloc::AllocError;

/// How often a state of a process passed this.
pub fn times_of(counts: &Counts, process: ProcessId, state: StateId, passage: Passage) -> u64
    ensures { result ≡ times_of counts.now process state passage }
{
    counts.times(Point {
        process,
        state,
        passage,
    })
}

/// How often a state did what it waits for.
pub fn awaited_times(
    material: &Material<'_, '_>,
    process: ProcessId,
    state: StateId,
    awaited: Awaited,
) -> Result<u64, AllocError>
    ensures { IfOk result (λ times. times
        ≡ awaited_times material.now.system.now material.now.counts.now process state awaited) }
{
    let counts = material.counts;
    match awaited {
        Awaited::Signal(_, signal) => Ok(times_of(counts, process, state, Passage::Taken(signal))),
        Awaited::Rest => rest_times(material, process, state),
        Awaited::Continuous(number) => {
            Ok(times_of(counts, process, state, Passage::Provided(number)))
        }
    }
}

/// How often a state took a signal that it doesn't name.
fn rest_times(
    material: &Material<'_, '_>,
    process: ProcessId,
    state: StateId,
) -> Result<u64, AllocError>
    ensures { IfOk result (λ times. times ≡ rest_from material.now.system.now material.now.counts.now process state 0
        material.now.system.now.signals) }
{
    let signals = material.system.signals();
    let mut times = 0;
    let mut next = 0;
    for _signal in signals {
        times = sum(
            times,
            unnamed_times(material, process, state, SignalId(next)),
        )?;
        next = next_number(next)?;
    }
    Ok(times)
}

/// How often a state took a signal, if it doesn't name that.
fn unnamed_times(
    material: &Material<'_, '_>,
    process: ProcessId,
    state: StateId,
    signal: SignalId,
) -> u64
    ensures { result ≡ unnamed_times material.now.system.now material.now.counts.now process state signal }
{
    if is_named(material.system, process, state, signal) {
        0
    } else {
        times_of(material.counts, process, state, Passage::Taken(signal))
    }
}

/// Whether a state names a signal.
fn is_named(system: &System, process: ProcessId, state: StateId, signal: SignalId) -> bool
    ensures { result ≡ is_named system.now process state signal }
{
    match system.process(process) {
        Some(process) => match process.table(state) {
            Some(table) => table.reactions.get(signal).is_some(),
            None => false,
        },
        None => false,
    }
}

/// The sum. So many events that it passes its type take more memory than there is.
fn sum(one: u64, other: u64) -> Result<u64, AllocError>
    ensures { IfOk result (λ sum. sum ≡ one + other) }
{
    one.checked_add(other).ok_or(AllocError)
}
