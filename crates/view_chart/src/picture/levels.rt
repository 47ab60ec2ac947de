//! Signals that are taken at once, or by nobody: arrows that are level.

use crate::chart::{Arrow, ColumnId, Row, Spot, Tail, Tip};
use crate::picture::arrows::{Look, look_of, slope_of};
use crate::picture::drawing::{Drawing, beside};
use crate::picture::ends::{OtherEnd, is_far, push_other_end};
use crate::picture::pixels::{Pixels, width_of};
use crate::picture::room::leads_right;
use std::alloc::AllocError;

/// Appends the arrows that are level, each over its labels, so that these take nothing of its line.
pub fn push_levels(text: &mut String, drawing: &Drawing) -> Result<(), AllocError> {
    for arrow in &drawing.chart.arrows {
        if slope_of(arrow).is_none() {
            push_level(text, drawing, arrow)?;
        }
    }
    Ok(())
}

fn push_level(text: &mut String, drawing: &Drawing, arrow: &Arrow) -> Result<(), AllocError> {
    let told = &arrow.told;
    write!(text, "<g><title>{told}</title>")?;
    match (arrow.tail, arrow.tip) {
        (Tail::At(from), Tip::At(to)) => push_whole(text, drawing, arrow, from, to.column)?,
        (Tail::At(from), Tip::Gone(to)) => push_gone(text, drawing, arrow, from, to)?,
        (Tail::At(from), Tip::Waits(Some(to)) | Tip::Later(Some(to))) if to != from.column => {
            push_waiting(text, drawing, arrow, from, to)?;
        }
        (Tail::At(from), Tip::Waits(to) | Tip::Later(to)) => {
            push_gone(text, drawing, arrow, from, to)?;
        }
        (Tail::Earlier(from), Tip::At(to)) => push_found(text, drawing, arrow, from, to)?,
        (Tail::Earlier(_), _) => (),
    }
    text.push_str("</g>\n")
}

/// Appends an arrow from one column to another.
fn push_whole(
    text: &mut String,
    drawing: &Drawing,
    arrow: &Arrow,
    from: Spot,
    to: ColumnId,
) -> Result<(), AllocError> {
    let is_right = from.column < to;
    let x1 = drawing.edge(from.column, is_right);
    let x2 = drawing.edge(to, !is_right);
    push_labels(text, drawing, arrow, from, to)?;
    push_line(text, drawing, arrow, from.row, x1, x2)
}

/// Appends an arrow that ends in a dot before the next column.
fn push_gone(
    text: &mut String,
    drawing: &Drawing,
    arrow: &Arrow,
    from: Spot,
    to: Option<ColumnId>,
) -> Result<(), AllocError> {
    let is_right = leads_right(from.column, to);
    let line = drawing.x(from.column);
    let far = width_of(arrow.label.as_str()).plus(24);
    let far = match drawing.neighbour(from.column, is_right) {
        Some(next) => far.or_less(distance(line, next).minus(12)),
        None => far,
    };
    let start = drawing.edge(from.column, is_right);
    let dot = beside(line, far.0, is_right);
    push_label(text, drawing, arrow, from.row, start.midway(dot), None)?;
    push_dotted(text, drawing, arrow, from.row, start, dot, is_right)
}

/// Appends an arrow that ends in a ring before its receiver.
fn push_waiting(
    text: &mut String,
    drawing: &Drawing,
    arrow: &Arrow,
    from: Spot,
    to: ColumnId,
) -> Result<(), AllocError> {
    let is_right = from.column < to;
    let start = drawing.edge(from.column, is_right);
    let dot = beside(drawing.x(to), 12, !is_right);
    push_labels(text, drawing, arrow, from, to)?;
    push_dotted(text, drawing, arrow, from.row, start, dot, is_right)
}

/// Appends an arrow that begins in a ring near its receiver.
fn push_found(
    text: &mut String,
    drawing: &Drawing,
    arrow: &Arrow,
    from: ColumnId,
    to: Spot,
) -> Result<(), AllocError> {
    let is_right = to.column < from;
    let tip = drawing.edge(to.column, is_right);
    let far = width_of(arrow.label.as_str()).plus(24);
    let ring = beside(drawing.x(to.column), far.0, is_right);
    push_label(text, drawing, arrow, to.row, tip.midway(ring), None)?;
    push_line(
        text,
        drawing,
        arrow,
        to.row,
        beside(ring, 4, !is_right),
        tip,
    )?;
    let x = ring.0;
    let y = drawing.y(to.row).0;
    write!(
        text,
        "<circle class=\"hole\" cx=\"{x}\" cy=\"{y}\" r=\"4\"/>"
    )
}

/// Appends a level line with a tip.
fn push_line(
    text: &mut String,
    drawing: &Drawing,
    arrow: &Arrow,
    row: Row,
    from: Pixels,
    to: Pixels,
) -> Result<(), AllocError> {
    let Look { line, tip, .. } = look_of(arrow);
    let y = drawing.y(row).0;
    let x1 = from.0;
    let x2 = to.0;
    write!(
        text,
        "<line class=\"{line}\" marker-end=\"url(#{tip})\" x1=\"{x1}\" y1=\"{y}\" x2=\"{x2}\" y2=\"{y}\"/>"
    )
}

/// Appends a level line with a dot at its end: full if the signal is gone, else hollow.
fn push_dotted(
    text: &mut String,
    drawing: &Drawing,
    arrow: &Arrow,
    row: Row,
    from: Pixels,
    dot: Pixels,
    is_right: bool,
) -> Result<(), AllocError> {
    let class = match arrow.tip {
        Tip::Gone(_) => "losttip",
        _ => "hole",
    };
    let y = drawing.y(row).0;
    let x1 = from.0;
    let x2 = beside(dot, 4, !is_right).0;
    let middle = dot.0;
    write!(
        text,
        "<line class=\"lost\" x1=\"{x1}\" y1=\"{y}\" x2=\"{x2}\" y2=\"{y}\"/>"
    )?;
    write!(
        text,
        "<circle class=\"{class}\" cx=\"{middle}\" cy=\"{y}\" r=\"4\"/>"
    )
}

/// Appends the labels of an arrow from one column to another: one beside its tail, and one beside its tip if that is
/// far away.
fn push_labels(
    text: &mut String,
    drawing: &Drawing,
    arrow: &Arrow,
    from: Spot,
    to: ColumnId,
) -> Result<(), AllocError> {
    let row = from.row;
    let is_right = from.column < to;
    let tail = middle_of_gap(drawing, arrow, from.column, is_right);
    if !is_far(from, Spot { column: to, row }) {
        return push_label(text, drawing, arrow, row, tail, None);
    }
    push_label(text, drawing, arrow, row, tail, Some(OtherEnd::To(to)))?;
    let tip = middle_of_gap(drawing, arrow, to, !is_right);
    push_label(
        text,
        drawing,
        arrow,
        row,
        tip,
        Some(OtherEnd::From(from.column)),
    )
}

/// Appends a label of an arrow, above its line.
fn push_label(
    text: &mut String,
    drawing: &Drawing,
    arrow: &Arrow,
    row: Row,
    middle: Pixels,
    other: Option<OtherEnd>,
) -> Result<(), AllocError> {
    let class = look_of(arrow).label;
    let x = middle.0;
    let y = drawing.y(row).minus(5).0;
    let label = &arrow.label;
    write!(
        text,
        "<text class=\"{class}\" x=\"{x}\" y=\"{y}\" text-anchor=\"middle\">{label}"
    )?;
    if let Some(other) = other {
        push_other_end(text, drawing, other)?;
    }
    text.push_str("</text>")
}

/// The middle between a column and the next one that is drawn.
fn middle_of_gap(drawing: &Drawing, arrow: &Arrow, from: ColumnId, is_right: bool) -> Pixels {
    let line = drawing.x(from);
    match drawing.neighbour(from, is_right) {
        Some(next) => line.midway(next),
        None => {
            let half = Pixels(width_of(arrow.label.as_str()).0 / 2).plus(20);
            beside(line, half.0, is_right)
        }
    }
}

fn distance(one: Pixels, other: Pixels) -> Pixels {
    one.or_more(other).minus(one.or_less(other).0)
}
