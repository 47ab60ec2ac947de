//! The order of a run on one thread.

ghost use Rattle.std.specs.Prelude.{◌≡◌, IfOk, map};
ghost use Rattle.std.specs.List.{AllByRecursion};
ghost use Rattle.view_run.specs.Order.{IsToldInTo, lost_to};
ghost use Rattle.view_text.specs.Sending.{sending_value};
ghost use Rattle.view_timeline.specs.Moves.{IsPart};
ghost use Rattle.view_timeline.specs.Timeline.{AreBegun};

use crate::order::Order;
use run_record::Report;
use sdl_script::Script;
use sdl_system::System;
use std::alloc::{AllocError, Global};
use view_text::lost_signals;
use view_timeline::{Untold, timeline_in};

/// The order in which the events are told of these instances, one after the other. It isn't known to its end if an event
/// can't be told then; in the order in which a run was made, each can.
pub fn order_by_tellers<'s>(
    alloc: Global,
    system: &System,
    script: &'s Script,
    report: &Report,
    tellers: &[u32],
) -> Result<Order<'s>, AllocError>
    ensures told { IfOk result (λ order.
        IsToldInTo order.stuck report.now.records.items tellers.now order.told) }
    ensures parts { IfOk result (λ order.
        AllByRecursion (IsPart report.now.records.items) order.told.moves.items) }
    ensures begun { IfOk result (λ order. AreBegun report.now.records.items order.told) }
    ensures lost { IfOk result (λ order. map sending_value order.lost.items
        ≡ lost_to order.stuck system.now report.now order.told script.now.lines.items) }
{
    match timeline_in(alloc, report, tellers) {
        Ok(told) => {
            let lost = lost_signals(alloc, system, script, report, &told)?;
            Ok(Order {
                told,
                stuck: None,
                lost,
            })
        }
        Err(Untold::Stuck { told, number }) => Ok(Order {
            told,
            stuck: Some(number),
            lost: Vec::new(alloc),
        }),
        Err(Untold::Memory) => Err(AllocError),
    }
}
