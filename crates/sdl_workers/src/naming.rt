//! A run under its name.

ghost use Rattle.std.specs.Prelude.{◌≡◌, All, IfOk, IfSome, Some, length, vec_len};
ghost use Rattle.settle_meaning.specs.Settled.{IsSettledReport};
ghost use Rattle.settle_run.specs.Course.{HasRows};
ghost use Rattle.threads_shared.specs.Environment.{IsOfEnv};
ghost use Rattle.threads_ports.specs.Named.{AreMade, AreNamed};

use crate::watch::{Stage, Watch};
use run_record::RunError;
use sdl_script::ScriptLine;
use sdl_system::System;
use sdl_timers::{NewClock, Reader, clock};
use settle_run::{Settled, settle};
use std::alloc::Global;
use std::sync::Wait;
use std::thread::Threads;
use threads_instance::Slots;
use threads_ports::{Entries, NewPorts, NumberSeat, Numbers, Ports, Run, Seat, Table};
use threads_shared::{Common, Environment, Own, Shared, Tables};
use threads_workers::{Driver, Gate, begin, drive};

/// The plan of a run: the lines of its script, how many workers it has, its limit of transitions, and whether its
/// course is kept, so that the order of all can be told.
#[derive(Clone, Copy, Drop)]
pub struct Plan<'a> {
    pub alloc: Global,
    pub lines: &'a [ScriptLine],
    pub workers: usize,
    pub limit: u64,
    pub keeps_course: bool,
}

/// A run under the name `J`: its system, ports and table are those that the name says.
pub fn run_named<
    J: Run + Send + Sync,
    R: Threads + Wait + Copy + Send + Sync,
    G: Gate + Watch + Sync,
>(
    rt: &R,
    system: &System,
    plan: Plan<'_>,
    made: NewPorts,
    table: Table,
    seat: Seat,
    gate: &G,
) -> Result<Settled, RunError>
    requires system { J.system ≡ Some system.now }
    requires all { vec_len made.rows ≡ 1000 }
    requires ports { AreNamed J.ports made.rows.items }
    requires made { AreMade made.rows.items made.desks.items made.owners.items }
    requires table { table.id ≡ J.table }
    requires seat { seat.table ≡ J.table }
    requires lines { All IsOfEnv plan.lines.now }
    ensures settled { IfOk result (λ settled.
        IsSettledReport system.now plan.entry.lines.now plan.entry.limit settled.report) }
    ensures rows { IfOk result (λ settled.
        IfSome settled.course (HasRows (length settled.report.records.items))) }
{
    let common: Common<J> = Common {
        ports: Ports::new(made),
        numbers: Numbers::new(table),
        entries: Entries::new(plan.alloc)?,
    };
    run_common(rt, system, plan, &common, NumberSeat::new(seat), gate)
}

/// A run over what lasts as long as it.
fn run_common<J: Run + Send + Sync, R: Threads + Wait + Copy + Send + Sync, G: Gate + Watch + Sync>(
    rt: &R,
    system: &System,
    plan: Plan<'_>,
    common: &Common<J>,
    seat: NumberSeat<J>,
    gate: &G,
) -> Result<Settled, RunError>
    requires system { J.system ≡ Some system.now }
    requires lines { All IsOfEnv plan.lines.now }
    ensures settled { IfOk result (λ settled.
        IsSettledReport system.now plan.entry.lines.now plan.entry.limit settled.report) }
    ensures rows { IfOk result (λ settled.
        IfSome settled.course (HasRows (length settled.report.records.items))) }
{
    let alloc = plan.alloc;
    let mut slots = Slots::new(alloc)?;
    let tables = Tables::new(alloc, system, plan.workers, plan.limit)?;
    let shared = Shared {
        alloc,
        rt,
        system,
        common,
        tables: &tables,
        slots: &slots,
        keeps_course: plan.keeps_course,
    };
    let settled = run_shared(&shared, plan, seat, gate);
    tables.end_with(&mut slots);
    settled
}

/// A run over all that its threads share: they work, are joined, and the run is settled.
fn run_shared<J: Run + Send + Sync, R: Threads + Wait + Copy + Send + Sync, G: Gate + Watch + Sync>(
    shared: &Shared<'_, '_, '_, J, R>,
    plan: Plan<'_>,
    seat: NumberSeat<J>,
    gate: &G,
) -> Result<Settled, RunError>
    requires { All IsOfEnv plan.lines.now }
    ensures settled { IfOk result (λ settled.
        IsSettledReport shared.now.system.now plan.entry.lines.now plan.entry.limit settled.report) }
    ensures rows { IfOk result (λ settled.
        IfSome settled.course (HasRows (length settled.report.records.items))) }
{
    let mut seat = seat;
    let NewClock { ticker, mut reader } = clock(plan.alloc)?;
    let environment = Environment::new(plan.alloc, plan.lines);
    begin(shared, &mut seat)?;
    let driver = Driver::new(environment, ticker);
    let driver = drive(shared, driver, &mut reader, &mut seat, plan.workers, gate)?;
    gate.reached(Stage::Joined);
    let settled = settle_joined(shared, plan, reader, seat, driver)?;
    gate.reached(Stage::Settled);
    Ok(settled)
}

/// Settles a run whose threads are all joined, unless one of them found no memory for the run's own tables.
fn settle_joined<J: Run, R: Threads + Wait + Copy + Sync>(
    shared: &Shared<'_, '_, '_, J, R>,
    plan: Plan<'_>,
    reader: Reader,
    seat: NumberSeat<J>,
    driver: Driver<'_, J>,
) -> Result<Settled, RunError>
    requires { driver.environment.lines ≡ plan.lines.now }
    ensures settled { IfOk result (λ settled.
        IsSettledReport shared.now.system.now plan.entry.lines.now plan.entry.limit settled.report) }
    ensures rows { IfOk result (λ settled.
        IfSome settled.course (HasRows (length settled.report.records.items))) }
{
    if shared.tables.signs.has_failed() {
        return Err(RunError::Memory);
    }
    let Driver {
        environment,
        time,
        ..
    } = driver;
    let processes = shared.system.processes().len();
    let mut own = Own::new(plan.alloc, reader, seat, processes, 1, plan.keeps_course)?;
    let settled = settle(
        shared,
        &mut own,
        environment,
        time,
        plan.limit,
        plan.workers,
    );
    own.end_with(shared);
    settled
}
