//! A run in a picture.

ghost use Rattle.std.specs.Prelude.{◌≢◌, IfErr, IfOk, OnErr, OnOk};
ghost use Rattle.sdl_command_line.specs.Drawn.{FailsToDraw, IsDrawn};
ghost use Rattle.view_chart.specs.Written.{IsBrokenOff, IsWritten};

use crate::views::form::Form;
use sdl_engine::{Order, Run, TextFault, order_of};
use sdl_report::WriteFault;
use std::alloc::{AllocError, Global};
use std::io::Write;
use view_chart::{Chart, Selection, Subject, lay_out, write_html, write_svg};

/// Writes what is selected of a run as a picture, or as a page with it. It answers the instance that can't go on, where
/// the order of the run isn't known to the end.
pub fn draw_picture<W: Write>(
    alloc: Global,
    run: &Run,
    form: Form,
    selection: &Selection,
    writer: &mut W,
) -> Result<Option<u32>, TextFault>
    requires { form ≢ Form.Msc }
    ensures ok { IfOk result (λ stuck. IsDrawn form run.now stuck (W.contents writer.old) (W.contents writer.new)) }
    ensures err { IfErr result (λ fault. FailsToDraw fault form run.now
        (W.contents writer.old) (W.contents writer.new)) }
{
    let order = order_of(alloc, run)?;
    write_picture(alloc, run, &order, form, selection, writer)?;
    Ok(order.stuck)
}

fn write_picture<W: Write>(
    alloc: Global,
    run: &Run,
    order: &Order<'_>,
    form: Form,
    selection: &Selection,
    writer: &mut W,
) -> Result<(), WriteFault>
    ensures ok { OnOk result (IsWritten (W.contents writer.old) (W.contents writer.new)) }
    ensures err { OnErr result (IsBrokenOff (W.contents writer.old) (W.contents writer.new)) }
{
    let chart = chart_of(alloc, run, order, selection)?;
    let title = run.name();
    match form {
        Form::Svg => write_svg(alloc, &chart, title, writer),
        _ => write_html(alloc, &chart, title, writer),
    }
}

/// The chart of what is selected of a run.
fn chart_of(
    alloc: Global,
    run: &Run,
    order: &Order<'_>,
    selection: &Selection,
) -> Result<Chart, AllocError> {
    let subject = Subject {
        system: &run.system,
        report: &run.report,
        timeline: &order.told,
        stuck: order.stuck,
        lost: &order.lost,
    };
    lay_out(alloc, subject, selection)
}
