//! The order of a run with workers.

ghost use Rattle.std.specs.Prelude.{◌≡◌, IfOk, map};
ghost use Rattle.std.specs.List.{AllByRecursion};
ghost use Rattle.view_run.specs.Finder.{IsOrderOf, IsPartOf, job_with};
ghost use Rattle.view_run.specs.Order.{IsToldInOrder, IsToldTo, lost_to};
ghost use Rattle.view_text.specs.Sending.{sending_value};
ghost use Rattle.view_timeline.specs.Moves.{IsPart};
ghost use Rattle.view_timeline.specs.Timeline.{AreBegun};

use crate::order::Order;
use crate::replay::{Found, find_order};
use port_model::Course;
use run_record::Report;
use sdl_script::Script;
use sdl_system::System;
use std::alloc::{AllocError, Global};
use view_text::lost_signals;
use view_timeline::{Timeline, Untold, timeline_in};

/// The one order of all of a run with workers, by what was kept of its course. It is a run, whatever the course says;
/// by a wrong one it isn't known to its end.
pub fn order_by_course<'s>(
    alloc: Global,
    system: &System,
    script: &'s Script,
    report: &Report,
    course: &Course,
) -> Result<Order<'s>, AllocError>
    ensures told { IfOk result (λ order.
        IsToldTo order.stuck system.now script.now.lines.items report.now order.told) }
    ensures parts { IfOk result (λ order.
        AllByRecursion (IsPart report.now.records.items) order.told.moves.items) }
    ensures begun { IfOk result (λ order. AreBegun report.now.records.items order.told) }
    ensures lost { IfOk result (λ order. map sending_value order.lost.items
        ≡ lost_to order.stuck system.now report.now order.told script.now.lines.items) }
{
    match find_order(alloc, system, script, report, course)? {
        Found::Told(tellers) => told_order(alloc, system, script, report, &tellers),
        Found::Stuck { told, .. } => part_order(alloc, system, script, report, &told),
    }
}

/// The order in which the events of these instances were found to be those of the run, one after the other.
fn told_order<'s>(
    alloc: Global,
    system: &System,
    script: &'s Script,
    report: &Report,
    tellers: &[u32],
) -> Result<Order<'s>, AllocError>
    requires { IsOrderOf (job_with system.now script.now.lines.items report.now) tellers.now }
    ensures told { IfOk result (λ order.
        IsToldTo order.stuck system.now script.now.lines.items report.now order.told) }
    ensures parts { IfOk result (λ order.
        AllByRecursion (IsPart report.now.records.items) order.told.moves.items) }
    ensures begun { IfOk result (λ order. AreBegun report.now.records.items order.told) }
    ensures lost { IfOk result (λ order. map sending_value order.lost.items
        ≡ lost_to order.stuck system.now report.now order.told script.now.lines.items) }
{
    match timeline_in(alloc, report, tellers) {
        Ok(told) => whole_order(alloc, system, script, report, told),
        Err(Untold::Stuck { told, number }) => Ok(Order {
            told,
            stuck: Some(number),
            lost: Vec::new(alloc),
        }),
        Err(Untold::Memory) => Err(AllocError),
    }
}

/// The order that is known to its end.
fn whole_order<'s>(
    alloc: Global,
    system: &System,
    script: &'s Script,
    report: &Report,
    told: Timeline,
) -> Result<Order<'s>, AllocError>
    requires { IsToldInOrder system.now script.now.lines.items report.now told }
    ensures told { IfOk result (λ order.
        IsToldTo order.stuck system.now script.now.lines.items report.now order.told) }
    ensures parts { IfOk result (λ order.
        AllByRecursion (IsPart report.now.records.items) order.told.moves.items) }
    ensures begun { IfOk result (λ order. AreBegun report.now.records.items order.told) }
    ensures lost { IfOk result (λ order. map sending_value order.lost.items
        ≡ lost_to order.stuck system.now report.now order.told script.now.lines.items) }
{
    let lost = lost_signals(alloc, system, script, report, &told)?;
    Ok(Order {
        told,
        stuck: None,
        lost,
    })
}

/// The order as far as it was found: in it the events of these instances begin a run.
fn part_order<'s>(
    alloc: Global,
    system: &System,
    script: &'s Script,
    report: &Report,
    tellers: &[u32],
) -> Result<Order<'s>, AllocError>
    requires { IsPartOf (job_with system.now script.now.lines.items report.now) tellers.now }
    ensures told { IfOk result (λ order.
        IsToldTo order.stuck system.now script.now.lines.items report.now order.told) }
    ensures parts { IfOk result (λ order.
        AllByRecursion (IsPart report.now.records.items) order.told.moves.items) }
    ensures begun { IfOk result (λ order. AreBegun report.now.records.items order.told) }
    ensures lost { IfOk result (λ order. map sending_value order.lost.items
        ≡ lost_to order.stuck system.now report.now order.told script.now.lines.items) }
{
    match timeline_in(alloc, report, tellers) {
        Ok(told) => Ok(Order {
            told,
            stuck: Some(0),
            lost: Vec::new(alloc),
        }),
        Err(Untold::Stuck { told, number }) => Ok(Order {
            told,
            stuck: Some(number),
            lost: Vec::new(alloc),
        }),
        Err(Untold::Memory) => Err(AllocError),
    }
}
