//! Whether two entries are the same.

ghost use Rattle.std.specs.Prelude.{◌≡◌, IsTrue};

use run_record::{Entry, Origin, Stimulus};

/// Whether two entries are the same.
pub fn same_entry(one: Entry, other: Entry) -> bool
    ensures { IsTrue result → one ≡ other }
{
    match one {
        Entry::Start { .. }
        | Entry::Consumed { .. }
        | Entry::Prior { .. }
        | Entry::Discarded { .. }
        | Entry::Provided { .. }
        | Entry::FailedAt { .. } => same_beginning(one, other),
        Entry::Task { .. }
        | Entry::Output { .. }
        | Entry::Set { .. }
        | Entry::Reset { .. }
        | Entry::Create { .. } => same_action(one, other),
        Entry::NextState { .. }
        | Entry::Stop
        | Entry::Failed { .. }
        | Entry::Rest { .. }
        | Entry::Cut { .. } => same_end(one, other),
    }
}

fn same_beginning(one: Entry, other: Entry) -> bool
    ensures { IsTrue result → one ≡ other }
{
    match (one, other) {
        (Entry::Start { at }, Entry::Start { at: other }) => at == other,
        (
            Entry::Consumed { at, got },
            Entry::Consumed {
                at: time,
                got: other,
            },
        ) => { at == time && same_stimulus(got, other) }
        (
            Entry::Prior { at, got },
            Entry::Prior {
                at: time,
                got: other,
            },
        ) => { at == time && same_stimulus(got, other) }
        (
            Entry::Discarded { at, got },
            Entry::Discarded {
                at: time,
                got: other,
            },
        ) => { at == time && same_stimulus(got, other) }
        (
            Entry::Provided { at, number },
            Entry::Provided {
                at: time,
                number: other,
            },
        ) => { at == time && number == other }
        (
            Entry::FailedAt { at, why },
            Entry::FailedAt {
                at: time,
                why: other,
            },
        ) => { at == time && why == other }
        _ => false,
    }
}

fn same_stimulus(one: Stimulus, other: Stimulus) -> bool
    ensures { IsTrue result → one ≡ other }
{
    one.name == other.name && same_origin(one.origin, other.origin)
}

fn same_origin(one: Origin, other: Origin) -> bool
    ensures { IsTrue result → one ≡ other }
{
    match (one, other) {
        (Origin::Timer, Origin::Timer) => true,
        (Origin::Null, Origin::Null) => true,
        (Origin::Env, Origin::Env) => true,
        (Origin::Instance(number), Origin::Instance(other)) => number == other,
        _ => false,
    }
}

fn same_action(one: Entry, other: Entry) -> bool
    ensures { IsTrue result → one ≡ other }
{
    match (one, other) {
        (
            Entry::Task { variable, value },
            Entry::Task {
                variable: to,
                value: other,
            },
        ) => { variable == to && value == other }
        (
            Entry::Output { signal, to, target },
            Entry::Output {
                signal: name,
                to: named,
                target: reached,
            },
        ) => { signal == name && to == named && target == reached }
        (
            Entry::Set { timer, due },
            Entry::Set {
                timer: name,
                due: at,
            },
        ) => { timer == name && due == at }
        (Entry::Reset { timer }, Entry::Reset { timer: name }) => timer == name,
        (
            Entry::Create { process, pid },
            Entry::Create {
                process: other,
                pid: number,
            },
        ) => { process == other && pid == number }
        _ => false,
    }
}

fn same_end(one: Entry, other: Entry) -> bool
    ensures { IsTrue result → one ≡ other }
{
    match (one, other) {
        (Entry::NextState { state }, Entry::NextState { state: other }) => state == other,
        (Entry::Stop, Entry::Stop) => true,
        (Entry::Failed { why }, Entry::Failed { why: other }) => why == other,
        (Entry::Rest { state }, Entry::Rest { state: other }) => state == other,
        (Entry::Cut { state }, Entry::Cut { state: other }) => state == other,
        _ => false,
    }
}
