//! The heads of columns.

use crate::chart::{Column, Head};
use crate::picture::pixels::Pixels;
use crate::picture::room::half_head;
use std::alloc::AllocError;

/// Appends the head of a column, in the middle of `x`, with its upper edge at `y`. It is 34 pixels high.
pub fn push_head(
    text: &mut String,
    column: &Column,
    x: Pixels,
    y: Pixels,
) -> Result<(), AllocError> {
    let half = half_head(column);
    let middle = x.0;
    let left = x.minus(half.0).0;
    let width = half.times(2).0;
    match &column.head {
        Head::Env => push_outer(text, "env", middle, left, width, y),
        Head::Others => push_outer(text, "others", middle, left, width, y),
        Head::Instance { number, process } => {
            let top = y.0;
            let name = y.plus(14).0;
            let below = y.plus(28).0;
            write!(
                text,
                "<rect class=\"head\" x=\"{left}\" y=\"{top}\" width=\"{width}\" height=\"34\" rx=\"3\"/>"
            )?;
            write!(
                text,
                "<text class=\"name\" x=\"{middle}\" y=\"{name}\" text-anchor=\"middle\">{process}</text>"
            )?;
            write!(
                text,
                "<text class=\"small\" x=\"{middle}\" y=\"{below}\" text-anchor=\"middle\">#{number}</text>"
            )
        }
    }
}

/// Appends the head of what is no instance.
fn push_outer(
    text: &mut String,
    name: &str,
    middle: u32,
    left: u32,
    width: u32,
    y: Pixels,
) -> Result<(), AllocError> {
    let top = y.plus(6).0;
    let line = y.plus(21).0;
    write!(
        text,
        "<rect class=\"outer\" x=\"{left}\" y=\"{top}\" width=\"{width}\" height=\"22\" rx=\"3\"/>"
    )?;
    write!(
        text,
        "<text class=\"name\" x=\"{middle}\" y=\"{line}\" text-anchor=\"middle\">{name}</text>"
    )
}
