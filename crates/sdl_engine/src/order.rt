//! One order of a run.

ghost use Rattle.std.specs.Prelude.{◌≡◌, IfErr, IfOk, map};
ghost use Rattle.std.specs.List.{AllByRecursion};
ghost use Rattle.sdl_engine.specs.Views.{IsOrderOf};
ghost use Rattle.view_run.specs.Order.{lost_to};
ghost use Rattle.view_text.specs.Sending.{sending_value};
ghost use Rattle.view_timeline.specs.Moves.{IsPart};
ghost use Rattle.view_timeline.specs.Timeline.{AreBegun};

use crate::options::TextFault;
use crate::run::Run;
use std::alloc::Global;
use view_run::{Order, order_by_log};

/// The order in which a run is told. If nothing is kept for it, there was no memory for that.
pub fn order_of<'r>(alloc: Global, run: &'r Run) -> Result<Order<'r>, TextFault>
    ensures told { IfOk result (λ order. IsOrderOf run.now.log order.stuck run.now.system
        run.now.script.lines.items run.now.report order.told) }
    ensures parts { IfOk result (λ order.
        AllByRecursion (IsPart run.now.report.records.items) order.told.moves.items) }
    ensures begun { IfOk result (λ order. AreBegun run.now.report.records.items order.told) }
    ensures lost { IfOk result (λ order. map sending_value order.lost.items
        ≡ lost_to order.stuck run.now.system run.now.report order.told run.now.script.lines.items) }
    ensures err { IfErr result (λ fault. fault ≡ TextFault.Memory) }
{
    let Some(log) = &run.log else {
        return Err(TextFault::Memory);
    };
    match order_by_log(alloc, &run.system, &run.script, &run.report, log) {
        Ok(order) => Ok(order),
        Err(_) => Err(TextFault::Memory),
    }
}
