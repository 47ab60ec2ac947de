//! A chart in a page that scrolls: heads stay at the top, and times at the left edge.

ghost use Rattle.std.specs.Prelude.{OnErr, OnOk};
ghost use Rattle.view_chart.specs.Written.{IsBrokenOff, IsWritten};

use crate::chart::Chart;
use crate::picture::drawing::Drawing;
use crate::picture::markup::push_escaped;
use crate::picture::pages::{push_body, push_description, push_heads};
use crate::picture::pixels::Pixels;
use crate::picture::style::{PAGE_STYLE, STYLE, TIPS};
use port_model::Ticks;
use sdl_report::{WriteFault, write_text};
use std::alloc::{AllocError, Global};
use std::io::Write;

/// What the signs mean, for readers who don't know Z.120.
const SIGNS: &str = concat!(
    "<details><summary>What the signs mean</summary>\n<ul>\n",
    "<li>A column is an instance of a process. Time, in ticks, runs downwards; its number is at the left edge.</li>\n",
    "<li>A bar is a transition. Point at it, and it shows its lines of the trace, with the tasks.</li>\n",
    "<li>An arrow is a signal. It is level where the receiver takes it at once, else it slopes. ",
    "One that leads far has its label at both ends, with who is at the other one. ",
    "A dashed one with the word discarded is taken to no effect. ",
    "One with a dot at its end is gone: nobody takes it. One with a ring at its end waits in the port.</li>\n",
    "<li>A hexagon is a state that is entered.</li>\n",
    "<li>An hourglass is a timer: one that is set, with the time when it is due, or, with an arrow, ",
    "one that expires. A small cross is a timer that is reset.</li>\n",
    "<li>A dashed arrow to a head creates an instance. A big cross ends one. A foot says that it lives on.</li>\n",
    "</ul></details>\n",
);

/// Writes a chart as a page of its own, with this title: there is no script in it, and nothing comes from elsewhere.
/// After a fault a prefix of a text has gone out, and not all of it.
pub fn write_html<W: Write>(
    alloc: Global,
    chart: &Chart,
    title: &str,
    writer: &mut W,
) -> Result<(), WriteFault>
    ensures ok { OnOk result (IsWritten (W.contents writer.old) (W.contents writer.new)) }
    ensures err { OnErr result (IsBrokenOff (W.contents writer.old) (W.contents writer.new)) }
{
    let text = html_text(alloc, chart, title)?;
    write_text(writer, text.as_str().as_bytes())
}

/// The page as HTML.
fn html_text(alloc: Global, chart: &Chart, title: &str) -> Result<String, AllocError> {
    let drawing = Drawing::new(alloc, chart, Pixels(14))?;
    let end = &chart.end;
    let mut text = String::new(alloc);
    push_top(&mut text, title)?;
    text.push_str("<div class=\"box\" tabindex=\"0\" role=\"region\" aria-label=\"chart\">\n")?;
    push_sticky_heads(&mut text, &drawing)?;
    text.push_str("<div class=\"rows\">")?;
    push_sticky_times(&mut text, &drawing)?;
    push_chart(&mut text, &drawing, title)?;
    write!(text, "</div></div>\n<footer>{end}</footer></body></html>\n")?;
    Ok(text)
}

/// Appends what comes before the box that scrolls.
fn push_top(text: &mut String, title: &str) -> Result<(), AllocError> {
    text.push_str("<!DOCTYPE html>\n<html lang=\"en\"><head><meta charset=\"utf-8\">")?;
    text.push_str("<meta name=\"viewport\" content=\"width=device-width\">")?;
    text.push_str("<meta name=\"color-scheme\" content=\"light dark\">\n<title>")?;
    push_escaped(text, title)?;
    text.push_str(": chart of a run</title>\n<style>\n")?;
    text.push_str(PAGE_STYLE)?;
    text.push_str(STYLE)?;
    text.push_str("</style></head>\n<body><header><h1>")?;
    push_escaped(text, title)?;
    text.push_str(": chart of a run</h1>\n")?;
    text.push_str(SIGNS)?;
    text.push_str("</header>\n")
}

/// Appends the heads, which stay at the top of the box. What is above the times stays in its corner.
fn push_sticky_heads(text: &mut String, drawing: &Drawing) -> Result<(), AllocError> {
    let left = drawing.width_of_times().0;
    let width = drawing.width().minus(left).0;
    write!(
        text,
        "<div class=\"heads\" aria-hidden=\"true\"><div class=\"corner\" style=\"width:{left}px\">time</div>"
    )?;
    writeln!(
        text,
        "<svg viewBox=\"{left} 0 {width} 44\" width=\"{width}\" height=\"44\">"
    )?;
    push_heads(text, drawing, Pixels(5), true)?;
    text.push_str("</svg></div>\n")
}

/// Appends the times, which stay at the left edge of the box: each is as high as what is drawn at it, and its number
/// stays in sight as long as something of that is.
fn push_sticky_times(text: &mut String, drawing: &Drawing) -> Result<(), AllocError> {
    let width = drawing.width_of_times().0;
    write!(
        text,
        "<div class=\"times\" style=\"width:{width}px\" aria-hidden=\"true\">"
    )?;
    let mut top = Pixels(0);
    let mut before: Option<Ticks> = None;
    for time in &drawing.chart.times {
        let next = drawing.y(time.row);
        push_time(text, before, next.minus(top.0))?;
        top = next;
        before = Some(time.at);
    }
    push_time(text, before, height_of(drawing).minus(top.0))?;
    text.push_str("</div>\n")
}

/// Appends a time that is so high, or what is above the first one.
fn push_time(text: &mut String, time: Option<Ticks>, height: Pixels) -> Result<(), AllocError> {
    let height = height.0;
    write!(text, "<div style=\"height:{height}px\">")?;
    if let Some(time) = time {
        let at = time.get();
        write!(text, "<b>{at}</b>")?;
    }
    text.push_str("</div>")
}

/// How high the chart is below its heads.
fn height_of(drawing: &Drawing) -> Pixels {
    drawing.bottom().plus(14)
}

/// Appends the chart below its heads, beside the times.
fn push_chart(text: &mut String, drawing: &Drawing, title: &str) -> Result<(), AllocError> {
    let left = drawing.width_of_times().0;
    let width = drawing.width().minus(left).0;
    let height = height_of(drawing).0;
    writeln!(
        text,
        "<svg viewBox=\"{left} 0 {width} {height}\" width=\"{width}\" height=\"{height}\" role=\"img\" \
         aria-labelledby=\"t d\">"
    )?;
    text.push_str("<title id=\"t\">")?;
    push_escaped(text, title)?;
    text.push_str(": message sequence chart of a run</title>\n<desc id=\"d\">")?;
    push_description(text, drawing.chart)?;
    text.push_str("</desc>\n")?;
    text.push_str(TIPS)?;
    text.push('\n')?;
    push_body(text, drawing, drawing.top)?;
    text.push_str("</svg>\n")
}
