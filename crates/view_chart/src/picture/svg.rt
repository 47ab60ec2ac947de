//! A chart as a picture of its own.

ghost use Rattle.std.specs.Prelude.{OnErr, OnOk};
ghost use Rattle.view_chart.specs.Written.{IsBrokenOff, IsWritten};

use crate::chart::Chart;
use crate::picture::drawing::Drawing;
use crate::picture::lines::push_numbers_of_times;
use crate::picture::markup::push_escaped;
use crate::picture::pages::{ABOVE, push_body, push_description, push_heads};
use crate::picture::pixels::Pixels;
use crate::picture::style::{STYLE, TIPS};
use sdl_report::{WriteFault, write_text};
use std::alloc::{AllocError, Global};
use std::io::Write;

/// Writes a chart as SVG, with this title. After a fault a prefix of a text has gone out, and not all of it.
pub fn write_svg<W: Write>(
    alloc: Global,
    chart: &Chart,
    title: &str,
    writer: &mut W,
) -> Result<(), WriteFault>
    ensures ok { OnOk result (IsWritten (W.contents writer.old) (W.contents writer.new)) }
    ensures err { OnErr result (IsBrokenOff (W.contents writer.old) (W.contents writer.new)) }
{
    let text = svg_text(alloc, chart, title)?;
    write_text(writer, text.as_str().as_bytes())
}

/// The picture as SVG.
fn svg_text(alloc: Global, chart: &Chart, title: &str) -> Result<String, AllocError> {
    let drawing = Drawing::new(alloc, chart, Pixels(62))?;
    let width = drawing.width().0;
    let height = drawing.bottom().plus(32).0;
    let mut text = String::new(alloc);
    text.push_str("<svg xmlns=\"http://www.w3.org/2000/svg\"")?;
    write!(
        text,
        " viewBox=\"0 0 {width} {height}\" width=\"{width}\" height=\"{height}\""
    )?;
    text.push_str(" role=\"img\" aria-labelledby=\"t d\">\n<title id=\"t\">")?;
    push_escaped(&mut text, title)?;
    text.push_str(": message sequence chart of a run</title>\n<desc id=\"d\">")?;
    push_description(&mut text, chart)?;
    write!(
        text,
        "</desc>\n<style>\n{STYLE}</style>\n{TIPS}\n<rect class=\"page\" width=\"{width}\" height=\"{height}\"/>\n"
    )?;
    push_body(&mut text, &drawing, ABOVE)?;
    push_heads(&mut text, &drawing, Pixels(4), false)?;
    push_edge(&mut text, &drawing)?;
    text.push_str("</svg>\n")?;
    Ok(text)
}

/// Appends what is at the left edge: the times, and below them the last line.
fn push_edge(text: &mut String, drawing: &Drawing) -> Result<(), AllocError> {
    text.push_str("<text class=\"small\" x=\"10\" y=\"25\">time</text>\n")?;
    push_numbers_of_times(text, drawing)?;
    let y = drawing.bottom().plus(22).0;
    let end = &drawing.chart.end;
    writeln!(
        text,
        "<text class=\"small\" x=\"10\" y=\"{y}\">{end}</text>"
    )
}
