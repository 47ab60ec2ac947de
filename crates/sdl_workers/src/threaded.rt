//! A run on several threads.

ghost use Rattle.std.specs.Prelude.{All, IfOk, IfSome, length};
ghost use Rattle.sdl_script.specs.Script.{SendsFromEnv};
ghost use Rattle.settle_meaning.specs.Headline.{IsHeadline};
ghost use Rattle.settle_meaning.specs.Settled.{IsSettledReport};
ghost use Rattle.settle_run.specs.Course.{HasRows};
ghost use Rattle.threads_shared.specs.Environment.{IsOfEnv};

use crate::naming::{Plan, run_named};
use crate::stack::touch_stack;
use crate::watch::Watch;
use run_record::{Report, RunError};
use sdl_script::Script;
use sdl_system::System;
use settle_meaning::laws::settled_reports_have_headline;
use settle_run::Settled;
use std::alloc::Global;
use std::marker::Brand;
use std::sync::Wait;
use std::thread::Threads;
use threads_ports::birth as ports;
use threads_ports::instances::birth;
use threads_workers::Gate;

/// Runs a system on a script, on so many threads beside the calling one, which is the environment: until nobody can act,
/// the script is at its end and no timer is due by then, or until `limit` transitions are made, and perhaps some more. A
/// thread that can't be started is left out. `gate` hears of each step that a worker makes, before it is made, and how far
/// the run has come. It answers nothing, and no clause names it: each report has the headline and is settled, whatever
/// `gate` does. `workers` is 1 to 16, `limit` 1 at least, and the script is one for the system: the caller's conditions.
///
/// The headline: for all behaviours that the processes of the system mean, each record is a run of its process, on a legal
/// history of its port, in which each take that found nothing had nothing to consume at its moment; and once stopped or
/// failed, an instance takes nothing more.
///
/// The report is settled. Whole, or cut at the limit, no timer's signal is taken before its time, nothing before it was
/// sent, and instances start as they are created, with the values that their creates gave. Nothing was lost between threads.
///
/// Memory: the environment, or a table of the run, found none. Lost, with a number: a signal, an expiry or an instance is
/// missing, or a target or a create's null is not what it may be. Every thread is joined, whatever the answer is.
#[tactic(auto, using(crate::proofs::Sending::lines_of_env))]
pub fn run<R: Threads + Wait + Copy + Send + Sync, G: Gate + Watch + Sync>(
    rt: &R,
    alloc: Global,
    system: &System,
    script: &Script,
    workers: usize,
    limit: u64,
    gate: &G,
) -> Result<Report, RunError>
    requires { All (SendsFromEnv system.now) script.now.lines.items }
    ensures headline { IfOk result (λ report. IsHeadline system.now report) }
    ensures settled { IfOk result (λ report.
        IsSettledReport system.now script.now.lines.items limit report) }
{
    let plan = Plan {
        alloc,
        lines: script.lines.as_slice(),
        workers,
        limit,
        keeps_course: false,
    };
    settled_reports_have_headline();
    let settled = run_plan(rt, system, plan, gate)?;
    Ok(settled.report)
}

/// `run`, which keeps its course beside the report, so that the one order of all can be told. It takes some bytes for
/// each event. Without a course there was no memory for all of it. The report is there all the same.
#[tactic(auto, using(crate::proofs::Sending::lines_of_env))]
pub fn run_with_course<R: Threads + Wait + Copy + Send + Sync, G: Gate + Watch + Sync>(
    rt: &R,
    alloc: Global,
    system: &System,
    script: &Script,
    workers: usize,
    limit: u64,
    gate: &G,
) -> Result<Settled, RunError>
    requires { All (SendsFromEnv system.now) script.now.lines.items }
    ensures headline { IfOk result (λ settled. IsHeadline system.now settled.report) }
    ensures settled { IfOk result (λ settled.
        IsSettledReport system.now script.now.lines.items limit settled.report) }
    ensures rows { IfOk result (λ settled.
        IfSome settled.course (HasRows (length settled.report.records.items))) }
{
    let plan = Plan {
        alloc,
        lines: script.lines.as_slice(),
        workers,
        limit,
        keeps_course: true,
    };
    settled_reports_have_headline();
    let settled = run_plan(rt, system, plan, gate)?;
    Ok(settled)
}

/// A run by its plan.
fn run_plan<R: Threads + Wait + Copy + Send + Sync, G: Gate + Watch + Sync>(
    rt: &R,
    system: &System,
    plan: Plan<'_>,
    gate: &G,
) -> Result<Settled, RunError>
    requires { All IsOfEnv plan.lines.now }
    ensures settled { IfOk result (λ settled.
        IsSettledReport system.now plan.entry.lines.now plan.entry.limit settled.report) }
    ensures rows { IfOk result (λ settled.
        IfSome settled.course (HasRows (length settled.report.records.items))) }
{
    touch_stack(plan.alloc, plan.workers)?;
    let made = ports::ports(rt, plan.alloc, plan.workers.max(1))?;
    let (table, seat) = birth::table(plan.alloc)?;
    run_named::<Brand, R, G>(rt, system, plan, made, table, seat, gate)
}
