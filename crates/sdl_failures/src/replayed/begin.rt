//! Where a transition begins.

ghost use Rattle.std.specs.Prelude.{◌≡◌};
ghost use Rattle.std.specs.Option.{option_map};
ghost use Rattle.port_model.specs.Take.{name_of};
ghost use Rattle.port_model.specs.Value.{ValueList};
ghost use Rattle.run_record.specs.Entry.{event_of, got_of};
ghost use Rattle.sdl_failures.specs.Came.{begin_of, continuous_in, numbered};
ghost use Rattle.sdl_failures.specs.Received.{reception_in};

use crate::replayed::reception::reception_in;
use run_record::{Entry, Stimulus};
use sdl_system::{Continuous, NodeId, Process, StateId};

/// The node at which the transition begins that an event begins, if it begins one. Its values say nothing.
pub fn begin_of(process: &Process, state: Option<StateId>, entry: Entry) -> Option<NodeId>
    ensures { (values : ValueList) → result ≡ begin_of process.now state (event_of entry values) }
{
    match entry {
        Entry::Start { .. } => Some(process.start),
        Entry::Consumed { got, .. } => begin_with(process, state, got),
        Entry::Prior { got, .. } => begin_with(process, state, got),
        Entry::Provided { number, .. } => begin_by(process, state, number),
        _ => None,
    }
}

/// Where the transition of what a state takes begins. Its values say nothing.
fn begin_with(process: &Process, state: Option<StateId>, got: Stimulus) -> Option<NodeId>
    ensures { (values : ValueList) → result
        ≡ option_map (λ one. one.begin) (reception_in process.now state (name_of (got_of got values))) }
{
    match reception_in(process, state, got.name) {
        Some(reception) => Some(reception.begin),
        None => None,
    }
}

/// Where the transition of the continuous signal of this number begins.
fn begin_by(process: &Process, state: Option<StateId>, number: u32) -> Option<NodeId>
    ensures { result ≡ option_map (λ one. one.begin) (continuous_in process.now state number) }
{
    match continuous_in(process, state, number) {
        Some(signal) => Some(signal.begin),
        None => None,
    }
}

/// The continuous signal of a state that has this number.
fn continuous_in(process: &Process, state: Option<StateId>, number: u32) -> Option<Continuous>
    ensures { result ≡ continuous_in process.now state number }
{
    let table = process.table(state?)?;
    numbered(&table.continuous, number)
}

fn numbered(signals: &[Continuous], number: u32) -> Option<Continuous>
    ensures { result ≡ numbered number signals.now }
{
    for signal in signals {
        if signal.number == number {
            return Some(*signal);
        }
    }
    None
}
