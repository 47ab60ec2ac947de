//! Signals that have to wait: arrows that slope.

use crate::chart::{Arrow, Spot};
use crate::picture::arrows::{Look, look_of, slope_of};
use crate::picture::drawing::{Drawing, beside};
use crate::picture::ends::{OtherEnd, is_far, push_other_end};
use std::alloc::AllocError;

/// Appends the lines of the arrows that slope. Their labels come after all else, so that no line goes through them.
pub fn push_slopes(text: &mut String, drawing: &Drawing) -> Result<(), AllocError> {
    for arrow in &drawing.chart.arrows {
        if let Some((from, to)) = slope_of(arrow) {
            push_slope(text, drawing, arrow, from, to)?;
        }
    }
    Ok(())
}

fn push_slope(
    text: &mut String,
    drawing: &Drawing,
    arrow: &Arrow,
    from: Spot,
    to: Spot,
) -> Result<(), AllocError> {
    let Look { line, tip, .. } = look_of(arrow);
    let told = &arrow.told;
    let y1 = drawing.y(from.row).0;
    let y2 = drawing.y(to.row).0;
    write!(text, "<g><title>{told}</title>")?;
    if from.column == to.column {
        let x = drawing.edge(from.column, true);
        let edge = x.0;
        let out = x.plus(11).0;
        return writeln!(
            text,
            "<path class=\"{line}\" marker-end=\"url(#{tip})\" d=\"M{edge} {y1}H{out}V{y2}H{edge}\"/></g>"
        );
    }
    let is_right = from.column < to.column;
    let x1 = drawing.edge(from.column, is_right).0;
    let x2 = drawing.edge(to.column, !is_right).0;
    writeln!(
        text,
        "<line class=\"{line}\" marker-end=\"url(#{tip})\" x1=\"{x1}\" y1=\"{y1}\" x2=\"{x2}\" y2=\"{y2}\"/></g>"
    )
}

/// Appends the labels of the arrows that slope.
pub fn push_slope_labels(text: &mut String, drawing: &Drawing) -> Result<(), AllocError> {
    for arrow in &drawing.chart.arrows {
        if let Some((from, to)) = slope_of(arrow) {
            push_labels_of(text, drawing, arrow, from, to)?;
        }
    }
    Ok(())
}

/// Appends the labels of an arrow: one at its tip, and one at its tail if that is far away.
fn push_labels_of(
    text: &mut String,
    drawing: &Drawing,
    arrow: &Arrow,
    from: Spot,
    to: Spot,
) -> Result<(), AllocError> {
    let told = &arrow.told;
    let is_far = is_far(from, to);
    write!(text, "<g><title>{told}</title>")?;
    if is_far {
        push_label(text, drawing, arrow, from, OtherEnd::To(to.column), is_far)?;
    }
    push_label(
        text,
        drawing,
        arrow,
        to,
        OtherEnd::From(from.column),
        is_far,
    )?;
    text.push_str("</g>\n")
}

/// Appends a label beyond an end of an arrow: there its line doesn't go, nor those of the other arrows of a fan.
fn push_label(
    text: &mut String,
    drawing: &Drawing,
    arrow: &Arrow,
    at: Spot,
    other: OtherEnd,
    is_far: bool,
) -> Result<(), AllocError> {
    let class = look_of(arrow).label;
    let label = &arrow.label;
    let is_right = other.column() <= at.column;
    let far = if other.column() == at.column { 22 } else { 12 };
    let x = beside(drawing.x(at.column), far, is_right).0;
    let y = drawing.y(at.row).plus(4).0;
    let anchor = if is_right { "start" } else { "end" };
    write!(
        text,
        "<text class=\"{class}\" x=\"{x}\" y=\"{y}\" text-anchor=\"{anchor}\">{label}"
    )?;
    if is_far {
        push_other_end(text, drawing, other)?;
    }
    text.push_str("</text>")
}
