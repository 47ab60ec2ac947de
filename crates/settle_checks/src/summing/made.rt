//! Whether each instance has its record.

ghost use Rattle.std.specs.Prelude.{◌≡◌, ◌++◌, ◌+◌, [], IfOk, IsTrue, length, map};
ghost use Rattle.std.specs.List.{flat_map};
ghost use Rattle.settle_meaning.specs.Identities.{AreMade, AreRising, created_in, first_identities, first_of, identities_of, identity_of};
ghost use Rattle.settle_checks.specs.Summary.{AreSummaries, child_of};

use crate::summing::creating::Birth;
use crate::summing::flows::is_same_pid;
use crate::summing::summary::Summary;
use port_model::Pid;
use run_record::{Identity, Record};
use sdl_system::{Process, ProcessId, System};
use std::alloc::{AllocError, Global};

/// So many instances there may be in all.
pub const MOST_INSTANCES: usize = 1_000;

/// Whether the records are those of the instances with which the system begins, and of those that the records create:
/// each has one, and there is no other.
pub fn are_made(
    alloc: Global,
    system: &System,
    records: &[Record],
    sums: &[Summary],
) -> Result<bool, AllocError>
    requires rising { AreRising 0 records.now }
    requires sums { AreSummaries records.now sums.now }
    ensures { IfOk result (λ made. IsTrue made → AreMade system.now records.now) }
{
    let mut made = Vec::new(alloc);
    if !add_initial(&mut made, system.processes())? {
        return Ok(false);
    }
    if !add_all_created(&mut made, records, sums)? {
        return Ok(false);
    }
    made.sort_by_key(|who: &Identity| who.pid)?;
    Ok(are_of(&made, records))
}

/// Adds the instances with which a system of these processes begins. False: there are too many.
fn add_initial(made: &mut Vec<Identity>, processes: &[Process]) -> Result<bool, AllocError>
    requires { made.old.items ≡ [] }
    ensures { IfOk result (λ all. IsTrue all → made.new.items ≡ first_identities 1 0 processes.now) }
{
    let mut id = 0;
    for process in processes {
        if !add_instances(made, ProcessId(id), process.initial)? {
            return Ok(false);
        }
        let Some(next) = id.checked_add(1) else {
            return Ok(false);
        };
        id = next;
    }
    Ok(true)
}

/// Adds so many instances of a process, with the next numbers. False: there are too many.
fn add_instances(
    made: &mut Vec<Identity>,
    process: ProcessId,
    count: u32,
) -> Result<bool, AllocError>
    ensures { IfOk result (λ all. IsTrue all
        → made.new.items ≡ made.old.items ++ first_of (length made.old.items + 1) process count) }
{
    for turn in 0..count {
        if made.len() >= MOST_INSTANCES {
            return Ok(false);
        }
        let pid = made.len() as u32 + 1;
        made.push(Identity {
            process,
            pid,
            parent: Pid::Null,
        })?;
    }
    Ok(true)
}

/// Adds all that the records create. False: there are too many.
fn add_all_created(
    made: &mut Vec<Identity>,
    records: &[Record],
    sums: &[Summary],
) -> Result<bool, AllocError>
    requires { AreSummaries records.now sums.now }
    ensures { IfOk result (λ all. IsTrue all
        → made.new.items ≡ made.old.items ++ flat_map created_in records.now) }
{
    for k in 0..records.len() {
        if k >= sums.len() {
            return Ok(false);
        }
        if !add_children(made, records[k].pid(), &sums[k].creating.births)? {
            return Ok(false);
        }
    }
    Ok(true)
}

/// Adds the children of an instance. False: there are too many.
fn add_children(
    made: &mut Vec<Identity>,
    creator: u32,
    births: &[Birth],
) -> Result<bool, AllocError>
    ensures { IfOk result (λ all. IsTrue all
        → made.new.items ≡ made.old.items ++ map (child_of creator) births.now) }
{
    for birth in births {
        if made.len() >= MOST_INSTANCES {
            return Ok(false);
        }
        made.push(Identity {
            process: birth.process,
            pid: birth.number,
            parent: Pid::Of(creator),
        })?;
    }
    Ok(true)
}

/// Whether they are those of the records, in their order.
fn are_of(made: &[Identity], records: &[Record]) -> bool
    ensures { IsTrue result → identities_of records.now ≡ made.now }
{
    if made.len() != records.len() {
        return false;
    }
    for index in 0..made.len() {
        if !is_of(made[index], &records[index]) {
            return false;
        }
    }
    true
}

/// Whether the record is that of this instance.
fn is_of(who: Identity, trace: &Record) -> bool
    ensures { IsTrue result → who ≡ identity_of trace.now }
{
    who.process.0 == trace.process().0
        && who.pid == trace.pid()
        && is_same_pid(who.parent, trace.parent())
}
