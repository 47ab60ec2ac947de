//! What is drawn under all else: the lines of times and columns, and the bars of transitions.

use crate::chart::{Bar, Column, ColumnId, Ending, Head};
use crate::picture::drawing::{BAR, Drawing, ROW};
use crate::picture::pixels::Pixels;
use std::alloc::AllocError;

/// Appends the lines of the times.
pub fn push_times(text: &mut String, drawing: &Drawing) -> Result<(), AllocError> {
    let right = drawing.width().minus(8).0;
    for time in &drawing.chart.times {
        let y = drawing.y(time.row).0;
        writeln!(
            text,
            "<line class=\"tick\" x1=\"8\" y1=\"{y}\" x2=\"{right}\" y2=\"{y}\"/>"
        )?;
    }
    Ok(())
}

/// Appends the times themselves, at the left edge.
pub fn push_numbers_of_times(text: &mut String, drawing: &Drawing) -> Result<(), AllocError> {
    for time in &drawing.chart.times {
        let y = drawing.y(time.row).plus(15).0;
        let at = time.at.get();
        writeln!(text, "<text class=\"time\" x=\"10\" y=\"{y}\">{at}</text>")?;
    }
    Ok(())
}

/// Appends the lines of the columns. `above` is how far they begin above the first row, except those of instances that
/// are created.
pub fn push_columns(text: &mut String, drawing: &Drawing, above: Pixels) -> Result<(), AllocError> {
    for (place, column) in drawing.chart.columns.iter().enumerate() {
        if column.used
            && let Ok(number) = u32::try_from(place)
        {
            push_column(text, drawing, column, drawing.x(ColumnId(number)), above)?;
        }
    }
    Ok(())
}

fn push_column(
    text: &mut String,
    drawing: &Drawing,
    column: &Column,
    line: Pixels,
    above: Pixels,
) -> Result<(), AllocError> {
    let x = line.0;
    let from = match column.created {
        Some(row) => drawing.y(row).plus(17).0,
        None => drawing.top.minus(above.0).0,
    };
    let to = drawing.end_of(column).0;
    let class = match column.head {
        Head::Instance { .. } => "line",
        _ => "line dotted",
    };
    writeln!(
        text,
        "<line class=\"{class}\" x1=\"{x}\" y1=\"{from}\" x2=\"{x}\" y2=\"{to}\"/>"
    )?;
    push_foot(text, column, line, to)
}

/// Appends the foot of an instance that lives on: full, or hollow if the run was cut.
fn push_foot(text: &mut String, column: &Column, line: Pixels, y: u32) -> Result<(), AllocError> {
    let Head::Instance { number, process } = &column.head else {
        return Ok(());
    };
    let (class, told) = match column.ending {
        Ending::Rest => ("end", "lives on when the run ends"),
        Ending::Cut => ("cut", "goes on where the run is cut"),
        Ending::Open | Ending::Stop(_) => return Ok(()),
    };
    let left = line.minus(16).0;
    write!(
        text,
        "<rect class=\"{class}\" x=\"{left}\" y=\"{y}\" width=\"32\" height=\"4\">"
    )?;
    writeln!(text, "<title>{process} #{number} {told}</title></rect>")
}

/// Appends the bars of the transitions.
pub fn push_bars(text: &mut String, drawing: &Drawing) -> Result<(), AllocError> {
    for bar in &drawing.chart.bars {
        push_bar(text, drawing, bar)?;
    }
    Ok(())
}

fn push_bar(text: &mut String, drawing: &Drawing, bar: &Bar) -> Result<(), AllocError> {
    let left = drawing.x(bar.column).minus(BAR).0;
    let half = if bar.is_behind_sign { ROW / 2 } else { 4 };
    let top = drawing.y(bar.first).minus(half);
    let y = top.0;
    let height = drawing.y(bar.last).plus(half).minus(y).0;
    let told = &bar.told;
    writeln!(
        text,
        "<rect class=\"bar\" x=\"{left}\" y=\"{y}\" width=\"10\" height=\"{height}\"><title>{told}</title></rect>"
    )
}
