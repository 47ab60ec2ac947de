//! The arrows of creates.

use crate::chart::Creation;
use crate::picture::drawing::Drawing;
use crate::picture::heads::push_head;
use std::alloc::AllocError;

/// Appends the arrows of creates, each with the head that it leads to.
pub fn push_creations(text: &mut String, drawing: &Drawing) -> Result<(), AllocError> {
    for creation in &drawing.chart.creations {
        push_creation(text, drawing, creation)?;
    }
    Ok(())
}

fn push_creation(
    text: &mut String,
    drawing: &Drawing,
    creation: &Creation,
) -> Result<(), AllocError> {
    let Creation {
        from,
        to,
        row,
        told,
    } = creation;
    let y = drawing.y(*row);
    let line = y.0;
    let is_right = from < to;
    let x1 = drawing.edge(*from, is_right).0;
    let x2 = drawing.edge_of_head(*to, !is_right).0;
    write!(text, "<g><title>{told}</title>")?;
    write!(
        text,
        "<line class=\"made\" marker-end=\"url(#a)\" x1=\"{x1}\" y1=\"{line}\" x2=\"{x2}\" y2=\"{line}\"/>"
    )?;
    if let Some(column) = drawing.column(*to) {
        push_head(text, column, drawing.x(*to), y.minus(17))?;
    }
    text.push_str("</g>\n")
}
