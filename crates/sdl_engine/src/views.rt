//! What is written of a run, by the view that is asked for.

ghost use Rattle.std.specs.Prelude.{◌≡◌, IfErr, IfOk, None};
ghost use Rattle.sdl_engine.specs.Answer.{FailsToTellRun, TellsRun};

use crate::options::{TextFault, View};
use crate::order::order_of;
use crate::run::{Run, signals_of};
use crate::runner::Runner;
use std::alloc::Global;
use std::io::Write;
use view_text::{write_json, write_lines};

/// Writes a run in this view. So many workers make the text of its report, if there are threads for them. It answers
/// the instance that can't go on, where its order is asked for and isn't known to the end.
pub fn write_view<E: Runner, W: Write>(
    runner: &E,
    alloc: Global,
    run: &Run,
    view: View,
    workers: Option<u8>,
    writer: &mut W,
) -> Result<Option<u32>, TextFault>
    ensures ok { IfOk result (λ stuck. TellsRun view run.now.log run.now.system run.now.report
        run.now.script.lines.items stuck (W.contents writer.old) (W.contents writer.new)) }
    ensures err { IfErr result (λ fault. FailsToTellRun fault view run.now.log run.now.system run.now.report
        run.now.script.lines.items (W.contents writer.old) (W.contents writer.new)) }
    ensures trace { view ≡ View.Trace → IfOk result (λ stuck. stuck ≡ None) }
{
    match view {
        View::Trace => write_trace(runner, alloc, run, workers, writer),
        View::Lines => write_in_lines(alloc, run, writer),
        View::Json => write_in_json(alloc, run, writer),
    }
}

/// Writes the report of a run.
fn write_trace<E: Runner, W: Write>(
    runner: &E,
    alloc: Global,
    run: &Run,
    workers: Option<u8>,
    writer: &mut W,
) -> Result<Option<u32>, TextFault>
    ensures ok { IfOk result (λ stuck. TellsRun View.Trace run.now.log run.now.system run.now.report
        run.now.script.lines.items stuck (W.contents writer.old) (W.contents writer.new)) }
    ensures err { IfErr result (λ fault. FailsToTellRun fault View.Trace run.now.log run.now.system
        run.now.report run.now.script.lines.items (W.contents writer.old) (W.contents writer.new)) }
    ensures trace { IfOk result (λ stuck. stuck ≡ None) }
{
    runner.write_report(alloc, workers, &run.report, &run.system, writer)?;
    Ok(None)
}

/// Writes the lines of a run in its order.
fn write_in_lines<W: Write>(
    alloc: Global,
    run: &Run,
    writer: &mut W,
) -> Result<Option<u32>, TextFault>
    ensures ok { IfOk result (λ stuck. TellsRun View.Lines run.now.log run.now.system run.now.report
        run.now.script.lines.items stuck (W.contents writer.old) (W.contents writer.new)) }
    ensures err { IfErr result (λ fault. FailsToTellRun fault View.Lines run.now.log run.now.system
        run.now.report run.now.script.lines.items (W.contents writer.old) (W.contents writer.new)) }
{
    let order = order_of(alloc, run)?;
    let (report, system) = (&run.report, &run.system);
    write_lines(
        alloc,
        report,
        &order.told,
        order.stuck,
        signals_of(&run.script),
        &order.lost,
        system,
        writer,
    )?;
    Ok(order.stuck)
}

/// Writes the transitions of a run in its order, as JSON.
fn write_in_json<W: Write>(
    alloc: Global,
    run: &Run,
    writer: &mut W,
) -> Result<Option<u32>, TextFault>
    ensures ok { IfOk result (λ stuck. TellsRun View.Json run.now.log run.now.system run.now.report
        run.now.script.lines.items stuck (W.contents writer.old) (W.contents writer.new)) }
    ensures err { IfErr result (λ fault. FailsToTellRun fault View.Json run.now.log run.now.system
        run.now.report run.now.script.lines.items (W.contents writer.old) (W.contents writer.new)) }
{
    let order = order_of(alloc, run)?;
    let (told, stuck) = (&order.told, order.stuck);
    write_json(
        alloc,
        &run.report,
        told,
        stuck,
        &order.lost,
        &run.system,
        writer,
    )?;
    Ok(stuck)
}
