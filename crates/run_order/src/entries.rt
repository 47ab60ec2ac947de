//! Whether two events are the same, but for their values.

ghost use Rattle.std.specs.Prelude.{◌≡◌, ◌↔◌, IsTrue};

use port_model::{SignalId, Value};
use run_record::{Entry, Failure, Origin, Stimulus};
use sdl_system::{Dest, ProcessId, StateId, Target, VariableId};

/// Whether two entries are the same.
pub fn same_entry(one: Entry, other: Entry) -> bool
    ensures { IsTrue result ↔ (one ≡ other) }
{
    match other {
        Entry::Start { at } => is_start(one, at),
        Entry::Consumed { at, got } => is_consumed(one, at, got),
        Entry::Prior { at, got } => is_prior(one, at, got),
        Entry::Discarded { at, got } => is_discarded(one, at, got),
        Entry::Provided { at, number } => is_provided(one, at, number),
        Entry::FailedAt { at, why } => is_failed_at(one, at, why),
        Entry::Task { variable, value } => is_task(one, variable, value),
        Entry::Output { signal, to, target } => is_output(one, signal, to, target),
        Entry::Set { timer, due } => is_set(one, timer, due),
        Entry::Reset { timer } => is_reset(one, timer),
        Entry::Create { process, pid } => is_create(one, process, pid),
        Entry::NextState { state } => is_next_state(one, state),
        Entry::Stop => is_stop(one),
        Entry::Failed { why } => is_failed(one, why),
        Entry::Rest { state } => is_rest(one, state),
        Entry::Cut { state } => is_cut(one, state),
    }
}

// ---- what begins a step

fn is_start(entry: Entry, time: u64) -> bool
    ensures { IsTrue result ↔ (entry ≡ Entry.Start time) }
{
    match entry {
        Entry::Start { at } => at == time,
        _ => false,
    }
}

fn is_consumed(entry: Entry, time: u64, stimulus: Stimulus) -> bool
    ensures { IsTrue result ↔ (entry ≡ Entry.Consumed time stimulus) }
{
    match entry {
        Entry::Consumed { at, got } => at == time && same_stimulus(got, stimulus),
        _ => false,
    }
}

fn is_prior(entry: Entry, time: u64, stimulus: Stimulus) -> bool
    ensures { IsTrue result ↔ (entry ≡ Entry.Prior time stimulus) }
{
    match entry {
        Entry::Prior { at, got } => at == time && same_stimulus(got, stimulus),
        _ => false,
    }
}

fn is_discarded(entry: Entry, time: u64, stimulus: Stimulus) -> bool
    ensures { IsTrue result ↔ (entry ≡ Entry.Discarded time stimulus) }
{
    match entry {
        Entry::Discarded { at, got } => at == time && same_stimulus(got, stimulus),
        _ => false,
    }
}

fn is_provided(entry: Entry, time: u64, place: u32) -> bool
    ensures { IsTrue result ↔ (entry ≡ Entry.Provided time place) }
{
    match entry {
        Entry::Provided { at, number } => at == time && number == place,
        _ => false,
    }
}

fn is_failed_at(entry: Entry, time: u64, failure: Failure) -> bool
    ensures { IsTrue result ↔ (entry ≡ Entry.FailedAt time failure) }
{
    match entry {
        Entry::FailedAt { at, why } => at == time && why == failure,
        _ => false,
    }
}

// ---- what comes within it

fn is_task(entry: Entry, name: VariableId, assigned: Value) -> bool
    ensures { IsTrue result ↔ (entry ≡ Entry.Task name assigned) }
{
    match entry {
        Entry::Task { variable, value } => variable == name && value == assigned,
        _ => false,
    }
}

fn is_output(entry: Entry, name: SignalId, destination: Dest, reached: Target) -> bool
    ensures { IsTrue result ↔ (entry ≡ Entry.Output name destination reached) }
{
    match entry {
        Entry::Output { signal, to, target } => signal == name
            && to == destination
            && target == reached,
        _ => false,
    }
}

fn is_set(entry: Entry, name: SignalId, time: u64) -> bool
    ensures { IsTrue result ↔ (entry ≡ Entry.Set name time) }
{
    match entry {
        Entry::Set { timer, due } => timer == name && due == time,
        _ => false,
    }
}

fn is_reset(entry: Entry, name: SignalId) -> bool
    ensures { IsTrue result ↔ (entry ≡ Entry.Reset name) }
{
    match entry {
        Entry::Reset { timer } => timer == name,
        _ => false,
    }
}

fn is_create(entry: Entry, id: ProcessId, number: Option<u32>) -> bool
    ensures { IsTrue result ↔ (entry ≡ Entry.Create id number) }
{
    match entry {
        Entry::Create { process, pid } => process == id && pid == number,
        _ => false,
    }
}

// ---- what ends it

fn is_next_state(entry: Entry, id: StateId) -> bool
    ensures { IsTrue result ↔ (entry ≡ Entry.NextState id) }
{
    match entry {
        Entry::NextState { state } => state == id,
        _ => false,
    }
}

fn is_stop(entry: Entry) -> bool
    ensures { IsTrue result ↔ (entry ≡ Entry.Stop) }
{
    match entry {
        Entry::Stop => true,
        _ => false,
    }
}

fn is_failed(entry: Entry, failure: Failure) -> bool
    ensures { IsTrue result ↔ (entry ≡ Entry.Failed failure) }
{
    match entry {
        Entry::Failed { why } => why == failure,
        _ => false,
    }
}

fn is_rest(entry: Entry, id: StateId) -> bool
    ensures { IsTrue result ↔ (entry ≡ Entry.Rest id) }
{
    match entry {
        Entry::Rest { state } => state == id,
        _ => false,
    }
}

fn is_cut(entry: Entry, id: Option<StateId>) -> bool
    ensures { IsTrue result ↔ (entry ≡ Entry.Cut id) }
{
    match entry {
        Entry::Cut { state } => state == id,
        _ => false,
    }
}

// ---- what was got

fn same_stimulus(one: Stimulus, other: Stimulus) -> bool
    ensures { IsTrue result ↔ (one ≡ other) }
{
    one.name == other.name && same_origin(one.origin, other.origin)
}

fn same_origin(one: Origin, other: Origin) -> bool
    ensures { IsTrue result ↔ (one ≡ other) }
{
    match other {
        Origin::Timer => is_timer(one),
        Origin::Null => is_null(one),
        Origin::Env => is_environment(one),
        Origin::Instance(number) => is_instance(one, number),
    }
}

fn is_timer(origin: Origin) -> bool
    ensures { IsTrue result ↔ (origin ≡ Origin.Timer) }
{
    match origin {
        Origin::Timer => true,
        _ => false,
    }
}

fn is_null(origin: Origin) -> bool
    ensures { IsTrue result ↔ (origin ≡ Origin.Null) }
{
    match origin {
        Origin::Null => true,
        _ => false,
    }
}

fn is_environment(origin: Origin) -> bool
    ensures { IsTrue result ↔ (origin ≡ Origin.Env) }
{
    match origin {
        Origin::Env => true,
        _ => false,
    }
}

fn is_instance(origin: Origin, other: u32) -> bool
    ensures { IsTrue result ↔ (origin ≡ Origin.Instance other) }
{
    match origin {
        Origin::Instance(number) => number == other,
        _ => false,
    }
}
