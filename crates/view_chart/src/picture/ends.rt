//! Arrows whose ends are far from each other: both have the label, with who is at the other one. So nobody has to
//! follow a line.

ghost use Rattle.std.specs.Prelude.{◌≡◌, ◌++◌, ◌↔◌, IsTrue, OnOk};
ghost use Rattle.std.specs.String.{string_bytes};
ghost use Rattle.view_chart.specs.Ends.{IsFar, other_words};

use crate::chart::{ColumnId, Head, Spot};
use crate::picture::drawing::Drawing;
use std::alloc::AllocError;

/// So many columns fit into a window of a usual width.
const NEAR_COLUMNS: u32 = 6;

/// So many rows are a third of its height.
const NEAR_ROWS: u32 = 12;

/// Whether the ends of an arrow may not be in sight together.
pub fn is_far(from: Spot, to: Spot) -> bool
    ensures { IsTrue result ↔ IsFar from to }
{
    NEAR_COLUMNS < from.column.0.abs_diff(to.column.0)
        || NEAR_ROWS < to.row.0.saturating_sub(from.row.0)
}

/// What a label says of the other end of its arrow: where it leads, or where it comes from.
#[derive(Clone, Copy)]
pub enum OtherEnd {
    To(ColumnId),
    From(ColumnId),
}

impl OtherEnd {
    /// The column of this end.
    pub fn column(self) -> ColumnId {
        match self {
            OtherEnd::To(column) | OtherEnd::From(column) => column,
        }
    }
}

/// Appends who is at the other end: ` to #5`, ` from env`.
pub fn push_other_end(
    text: &mut String,
    drawing: &Drawing,
    other: OtherEnd,
) -> Result<(), AllocError> {
    match drawing.column(other.column()) {
        Some(column) => push_words(text, other, &column.head),
        None => Ok(()),
    }
}

fn push_words(text: &mut String, other: OtherEnd, head: &Head) -> Result<(), AllocError>
    ensures { OnOk result (string_bytes text.new ≡ string_bytes text.old ++ other_words other head.now) }
{
    text.push_str(match other {
        OtherEnd::To(_) => " to ",
        OtherEnd::From(_) => " from ",
    })?;
    match head {
        Head::Env => text.push_str("env"),
        Head::Others => text.push_str("others"),
        Head::Instance { number, .. } => write!(text, "#{number}"),
    }
}
