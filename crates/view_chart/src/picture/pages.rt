//! The whole of a picture: what is drawn under what, and its words for those who don't see it.

use crate::chart::{Chart, ColumnId, Head};
use crate::picture::creations::push_creations;
use crate::picture::drawing::Drawing;
use crate::picture::heads::push_head;
use crate::picture::levels::push_levels;
use crate::picture::lines::{push_bars, push_columns, push_times};
use crate::picture::pixels::Pixels;
use crate::picture::signs::push_signs;
use crate::picture::slopes::{push_slope_labels, push_slopes};
use std::alloc::AllocError;

/// How far the lines of columns begin above the first row, in a picture with its heads.
pub const ABOVE: Pixels = Pixels(20);

/// Appends all that is drawn below the heads, beside the times. What comes later lies above, so that no line goes
/// through a label.
pub fn push_body(text: &mut String, drawing: &Drawing, above: Pixels) -> Result<(), AllocError> {
    push_times(text, drawing)?;
    push_columns(text, drawing, above)?;
    push_bars(text, drawing)?;
    push_slopes(text, drawing)?;
    push_creations(text, drawing)?;
    push_levels(text, drawing)?;
    push_signs(text, drawing)?;
    push_slope_labels(text, drawing)
}

/// Appends the heads of the columns, with their upper edges at `y`: of all, or of those alone that aren't created in
/// the picture.
pub fn push_heads(
    text: &mut String,
    drawing: &Drawing,
    y: Pixels,
    all: bool,
) -> Result<(), AllocError> {
    for (place, column) in drawing.chart.columns.iter().enumerate() {
        if column.used
            && (all || column.created.is_none())
            && let Ok(number) = u32::try_from(place)
        {
            push_head(text, column, drawing.x(ColumnId(number)), y)?;
            text.push('\n')?;
        }
    }
    Ok(())
}

/// Appends what the picture shows, in words: the columns, and the last line.
pub fn push_description(text: &mut String, chart: &Chart) -> Result<(), AllocError> {
    text.push_str("Columns: ")?;
    let mut between = "";
    for column in &chart.columns {
        if column.used {
            text.push_str(between)?;
            push_name(text, &column.head)?;
            between = ", ";
        }
    }
    let end = &chart.end;
    write!(
        text,
        "; {end}. Time, in ticks, runs downwards. The trace of the run says the same as text."
    )
}

fn push_name(text: &mut String, head: &Head) -> Result<(), AllocError> {
    match head {
        Head::Env => text.push_str("env"),
        Head::Others => text.push_str("others"),
        Head::Instance { number, process } => write!(text, "{process} #{number}"),
    }
}
