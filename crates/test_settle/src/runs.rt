//! Runs that no worker has: they are begun, and settled.

ghost use Rattle.std.specs.Prelude.{◌≡◌, All, Some, vec_len};
ghost use Rattle.threads_shared.specs.Environment.{IsOfEnv};
ghost use Rattle.threads_ports.specs.Named.{AreMade, AreNamed};

use crate::by_hand::{Made, by_hand};
use crate::given::Given;
use port_model::Ticks;
use run_record::{Report, RunError};
use sdl_timers::clock;
use settle_closing::laws::left_without_peers;
use settle_closing::{Closing, close};
use settle_rest::run_rest;
use settle_run::{Ending, Settled, report_of, settle};
use std::alloc::Global;
use std::marker::Brand;
use std::sync::Wait;
use std::thread::Threads;
use threads_instance::{Left, Slots};
use threads_ports::instances::birth;
use threads_ports::{
    Entries, NewPorts, NumberSeat, Numbers, Peers, Ports, Run, Seat, Table, birth as ports,
};
use threads_shared::{Common, Environment, Own, Shared, Tables};
use threads_workers::begin;

/// The greatest number of an instance in a test.
const MOST_INSTANCES: u32 = 20;

/// How many threads look at the records at most.
const THREADS: usize = 3;

/// How a run is settled that has begun.
#[derive(Clone, Copy)]
pub enum Way {
    /// By `settle`.
    AtOnce,
    /// By `settle`, after so many transitions.
    After(u64),
    /// By `settle`, once this instance isn't in its slot any more.
    WithoutInstance(u32),
    /// As a run that is cut at its limit, once the senders of this instance are let go. None: all are there.
    WithoutSenders(Option<u32>),
    /// As a run that is made so by hand.
    ByHand(Made),
}

/// The limit of a run, and how it is settled.
#[derive(Clone, Copy)]
pub struct Plan {
    pub alloc: Global,
    pub limit: u64,
    pub way: Way,
}

/// The report of a run that is settled so.
pub fn settle_named<R: Threads + Wait + Copy + Sync>(
    rt: &R,
    given: &Given,
    plan: Plan,
) -> Result<Report, RunError>
    requires { All IsOfEnv given.now.script.lines.items }
{
    let made = ports::ports(rt, plan.alloc, 1)?;
    let (table, seat) = birth::table(plan.alloc)?;
    run_named::<Brand, R>(rt, given, plan, made, table, seat)
}

/// A run under the name `J`.
fn run_named<J: Run, R: Threads + Wait + Copy + Sync>(
    rt: &R,
    given: &Given,
    plan: Plan,
    made: NewPorts,
    table: Table,
    seat: Seat,
) -> Result<Report, RunError>
    requires system { J.system ≡ Some given.now.system }
    requires all { vec_len made.rows ≡ 1000 }
    requires ports { AreNamed J.ports made.rows.items }
    requires made { AreMade made.rows.items made.desks.items made.owners.items }
    requires table { table.id ≡ J.table }
    requires seat { seat.table ≡ J.table }
    requires lines { All IsOfEnv given.now.script.lines.items }
{
    let common: Common<J> = Common {
        ports: Ports::new(made),
        numbers: Numbers::new(table),
        entries: Entries::new(plan.alloc)?,
    };
    run_common(rt, given, plan, &common, NumberSeat::new(seat))
}

/// A run over what lasts as long as it.
fn run_common<J: Run, R: Threads + Wait + Copy + Sync>(
    rt: &R,
    given: &Given,
    plan: Plan,
    common: &Common<J>,
    seat: NumberSeat<J>,
) -> Result<Report, RunError>
    requires system { J.system ≡ Some given.now.system }
    requires lines { All IsOfEnv given.now.script.lines.items }
{
    let Plan { alloc, limit, .. } = plan;
    let system = &given.system;
    let mut slots = Slots::new(alloc)?;
    let tables = Tables::new(alloc, system, 1, limit)?;
    let shared = Shared {
        alloc,
        rt,
        system,
        common,
        tables: &tables,
        slots: &slots,
        keeps_course: false,
    };
    let report = run_shared(&shared, given, plan, seat);
    tables.end_with(&mut slots);
    report
}

/// A run over all that its threads would share.
fn run_shared<J: Run, R: Threads + Wait + Copy + Sync>(
    shared: &Shared<'_, '_, '_, J, R>,
    given: &Given,
    plan: Plan,
    seat: NumberSeat<J>,
) -> Result<Report, RunError>
    requires { All IsOfEnv given.now.script.lines.items }
{
    let alloc = plan.alloc;
    let reader = clock(alloc)?.reader;
    let processes = shared.system.processes().len();
    let mut own = Own::new(alloc, reader, seat, processes, 1, false)?;
    let report = run_from_start(shared, &mut own, given, plan);
    own.end_with(shared);
    report
}

/// A run from its start, with what the one thread has for itself.
fn run_from_start<J: Run, R: Threads + Wait + Copy + Sync>(
    shared: &Shared<'_, '_, '_, J, R>,
    own: &mut Own<J>,
    given: &Given,
    plan: Plan,
) -> Result<Report, RunError>
    requires { All IsOfEnv given.now.script.lines.items }
{
    begin(shared, &mut own.seat)?;
    let environment = Environment::new(plan.alloc, given.script.lines.as_slice());
    settle_by(shared, own, environment, plan)
}

/// Settles a run that has begun.
fn settle_by<J: Run, R: Threads + Wait + Copy + Sync>(
    shared: &Shared<'_, '_, '_, J, R>,
    own: &mut Own<J>,
    environment: Environment<'_, J>,
    plan: Plan,
) -> Result<Report, RunError> {
    let mut environment = environment;
    let Plan { limit, way, .. } = plan;
    let start = Ticks::new(0);
    let settled = match way {
        Way::AtOnce => settle(shared, own, environment, start, limit, THREADS)?,
        Way::After(count) => {
            let at = run_rest(shared, own, &mut environment, start, count)?;
            settle(shared, own, environment, at, limit, THREADS)?
        }
        Way::WithoutInstance(number) => {
            lose_instance(shared, number);
            settle(shared, own, environment, start, limit, THREADS)?
        }
        Way::WithoutSenders(number) => cut_without(shared, own, environment, limit, number)?,
        Way::ByHand(made) => by_hand(shared, own, environment, limit, made)?,
    };
    Ok(settled.report)
}

/// Takes an instance out of its slot, and lets it go.
fn lose_instance<J: Run, R: Wait + Copy>(shared: &Shared<'_, '_, '_, J, R>, number: u32) {
    if let Some(slot) = shared.slots.of(number) {
        let _ = slot.leave(shared.rt);
    }
}

/// The report of a run that is cut at its limit, once the senders of this instance are let go.
fn cut_without<J: Run, R: Threads + Wait + Copy + Sync>(
    shared: &Shared<'_, '_, '_, J, R>,
    own: &mut Own<J>,
    environment: Environment<'_, J>,
    limit: u64,
    number: Option<u32>,
) -> Result<Settled, RunError> {
    let mut environment = environment;
    let at = run_rest(shared, own, &mut environment, Ticks::new(0), limit)?;
    let closings = closings_without(shared, own, at, number)?;
    let ending = Ending {
        whole: false,
        limit,
    };
    report_of(shared, closings, environment, ending, THREADS)
}

/// What is left of all instances, without the senders of one.
fn closings_without<'p, J: Run, R: Wait + Copy>(
    shared: &Shared<'_, '_, 'p, J, R>,
    own: &mut Own<J>,
    at: Ticks,
    number: Option<u32>,
) -> Result<Vec<Closing<'p, J, R>>, RunError> {
    let mut closings = Vec::new(shared.alloc);
    for next in 1..=MOST_INSTANCES {
        if let Some(closing) = closing_of(shared, own, at, next)? {
            closings.push(if number == Some(next) {
                without_peers(shared.alloc, closing)
            } else {
                closing
            })?;
        }
    }
    Ok(closings)
}

/// What is left of the instance of this number. None: nobody is in its slot.
fn closing_of<'p, J: Run, R: Wait + Copy>(
    shared: &Shared<'_, '_, 'p, J, R>,
    own: &mut Own<J>,
    at: Ticks,
    number: u32,
) -> Result<Option<Closing<'p, J, R>>, RunError> {
    let Some(slot) = shared.slots.of(number) else {
        return Ok(None);
    };
    match slot.leave(shared.rt) {
        Some(seated) => Ok(Some(close(seated, shared, own, false, at)?)),
        None => Ok(None),
    }
}

/// What is left of an instance, without its senders.
fn without_peers<'p, J: Run, R: Wait + Copy>(
    alloc: Global,
    closing: Closing<'p, J, R>,
) -> Closing<'p, J, R> {
    left_without_peers();
    closing.is_left();
    let whole = closing.whole();
    let Left {
        trace,
        inbox,
        gifts,
        course,
        ..
    } = closing.into_left();
    let left = Left {
        trace,
        inbox,
        peers: Peers::new(alloc),
        gifts,
        course,
    };
    Closing::new(whole, left)
}
