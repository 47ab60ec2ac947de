//! The order of a run, by what was kept of it.

ghost use Rattle.std.specs.Prelude.{◌≡◌, IfOk, map};
ghost use Rattle.std.specs.List.{AllByRecursion};
ghost use Rattle.view_run.specs.Order.{IsOrderBy, lost_to};
ghost use Rattle.view_text.specs.Sending.{sending_value};
ghost use Rattle.view_timeline.specs.Moves.{IsPart};
ghost use Rattle.view_timeline.specs.Timeline.{AreBegun};

use crate::by_course::order_by_course;
use crate::by_tellers::order_by_tellers;
use crate::order::Order;
use crate::order_log::OrderLog;
use run_record::Report;
use sdl_script::Script;
use sdl_system::System;
use std::alloc::{AllocError, Global};

/// The order in which a run is told, by what was kept of it. By the log of another run it may not be
/// known to its end.
pub fn order_by_log<'s>(
    alloc: Global,
    system: &System,
    script: &'s Script,
    report: &Report,
    log: &OrderLog,
) -> Result<Order<'s>, AllocError>
    ensures told { IfOk result (λ order.
        IsOrderBy log.now order.stuck system.now script.now.lines.items report.now order.told) }
    ensures parts { IfOk result (λ order.
        AllByRecursion (IsPart report.now.records.items) order.told.moves.items) }
    ensures begun { IfOk result (λ order. AreBegun report.now.records.items order.told) }
    ensures lost { IfOk result (λ order. map sending_value order.lost.items
        ≡ lost_to order.stuck system.now report.now order.told script.now.lines.items) }
{
    match log {
        OrderLog::Tellers(tellers) => order_by_tellers(alloc, system, script, report, tellers),
        OrderLog::Course(course) => order_by_course(alloc, system, script, report, course),
    }
}
