//! A run in a chart.

ghost use Rattle.std.specs.Prelude.{IfErr, IfOk};
ghost use Rattle.sdl_command_line.specs.Drawn.{FailsToDraw, IsDrawn};

use crate::views::form::Form;
use crate::views::picture::draw_picture;
use sdl_engine::{Run, TextFault, order_of};
use std::alloc::Global;
use std::io::Write;
use view_chart::Selection;
use view_text::write_msc;

/// Writes a run as a chart in this form. A picture shows what is selected, and a text of Z.120 the whole run. It answers
/// the instance that can't go on, where the order of the run isn't known to the end.
pub fn draw<W: Write>(
    alloc: Global,
    run: &Run,
    form: Form,
    selection: &Selection,
    writer: &mut W,
) -> Result<Option<u32>, TextFault>
    ensures ok { IfOk result (λ stuck. IsDrawn form run.now stuck (W.contents writer.old) (W.contents writer.new)) }
    ensures err { IfErr result (λ fault. FailsToDraw fault form run.now
        (W.contents writer.old) (W.contents writer.new)) }
{
    match form {
        Form::Svg | Form::Html => draw_picture(alloc, run, form, selection, writer),
        Form::Msc => draw_text(alloc, run, writer),
    }
}

/// Writes a run as text of Z.120.
fn draw_text<W: Write>(alloc: Global, run: &Run, writer: &mut W) -> Result<Option<u32>, TextFault>
    ensures ok { IfOk result (λ stuck. IsDrawn Form.Msc run.now stuck (W.contents writer.old) (W.contents writer.new)) }
    ensures err { IfErr result (λ fault. FailsToDraw fault Form.Msc run.now
        (W.contents writer.old) (W.contents writer.new)) }
{
    let order = order_of(alloc, run)?;
    let (name, system, report) = (run.name(), &run.system, &run.report);
    write_msc(
        alloc,
        name,
        system,
        &order.told,
        order.stuck,
        &order.lost,
        report,
        writer,
    )?;
    Ok(order.stuck)
}
