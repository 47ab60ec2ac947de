//! Whether signals went where the routes lead them.

ghost use Rattle.std.specs.Prelude.{◌≡◌, IfSome, IsTrue};
ghost use Rattle.sdl_system.specs.Route.{target_in};
ghost use Rattle.settle_checks.specs.Events.{IsProcessOf};
ghost use Rattle.settle_meaning.specs.Living.{AreLiving, GoesBy};

use crate::living::least_of;
use port_model::SignalId;
use run_record::Record;
use sdl_system::{Dest, ProcessId, Source, System, Target};

/// A signal that was sent: by whom, to which destination, and where it went.
#[derive(Clone, Copy)]
pub struct Routed {
    pub signal: SignalId,
    pub from: Source,
    pub to: Dest,
    pub target: Target,
}

/// Whether the signal went where the routes lead it, by some instances that may have lived then. `first` has the least
/// numbers of those that lived all the time.
///
/// If it reached an instance, that one is taken to have lived with these. This never refuses what a right run does: when
/// the signal was sent, no process before that of the instance had anybody, and the instance was the first of its own.
pub fn is_meant(
    system: &System,
    records: &[Record],
    first: &mut [Option<u32>],
    routed: Routed,
) -> bool
    requires { AreLiving records.now first.old }
    ensures meant { IsTrue result
        → GoesBy system.now records.now routed.signal routed.from routed.to routed.target }
    ensures same { first.new ≡ first.old }
{
    let Target::Instance(number) = routed.target else {
        return is_routed(system, first, routed);
    };
    // A Pid may name a number that nobody has.
    let Some(process) = process_of(records, number) else {
        return is_routed(system, first, routed);
    };
    let index = process.0 as usize;
    if index >= first.len() {
        return false;
    }
    let before = first[index];
    first[index] = least_of(before, number);
    let meant = is_routed(system, first, routed);
    first[index] = before;
    meant
}

/// Whether the signal went where the routes lead it, if these live.
fn is_routed(system: &System, first: &[Option<u32>], routed: Routed) -> bool
    ensures { IsTrue result
        → routed.target ≡ target_in system.now.routes routed.signal routed.from routed.to first.now }
{
    same_target(
        routed.target,
        system.route(routed.signal, routed.from, routed.to, first),
    )
}

/// Whether the two are the same.
fn same_target(one: Target, other: Target) -> bool
    ensures { IsTrue result → one ≡ other }
{
    match (one, other) {
        (Target::Instance(one), Target::Instance(other)) => one == other,
        (Target::Env, Target::Env) => true,
        (Target::Null, Target::Null) => true,
        (Target::Nobody, Target::Nobody) => true,
        _ => false,
    }
}

/// The process of the instance with this number.
fn process_of(records: &[Record], number: u32) -> Option<ProcessId>
    ensures { IfSome result (IsProcessOf records.now number) }
{
    // Numbers rise from 1 on, so no record past this place has the number.
    let end = records.len().min(number as usize);
    for back in 0..end {
        let record = &records[end - 1 - back];
        if record.pid() == number {
            return Some(record.process());
        }
        if record.pid() < number {
            return None;
        }
    }
    None
}
