//! From rows and columns to places in a picture.

use crate::chart::{Chart, Column, ColumnId, Ending, Head, Row};
use crate::picture::pixels::Pixels;
use crate::picture::room::half_head;
use crate::picture::spacing::Spacing;
use std::alloc::{AllocError, Global};

/// From one row to the next.
pub const ROW: u32 = 26;

/// Half of the width of a bar.
pub const BAR: u32 = 5;

/// A chart whose rows and columns have places.
#[derive(Drop)]
pub struct Drawing<'c> {
    pub chart: &'c Chart,
    spacing: Spacing,
    /// Where the first row is.
    pub top: Pixels,
}

impl<'c> Drawing<'c> {
    /// A chart whose first row is at `top`.
    pub fn new(alloc: Global, chart: &'c Chart, top: Pixels) -> Result<Self, AllocError> {
        Ok(Drawing {
            chart,
            spacing: Spacing::new(alloc, chart)?,
            top,
        })
    }

    /// How wide the picture is.
    pub fn width(&self) -> Pixels {
        self.spacing.width
    }

    /// How much of it the times take, at its left edge.
    pub fn width_of_times(&self) -> Pixels {
        self.spacing.times
    }

    /// Where the lines of the instances end that live on.
    pub fn bottom(&self) -> Pixels {
        self.y(Row(self.chart.rows)).plus(4)
    }

    /// The middle of a row.
    pub fn y(&self, row: Row) -> Pixels {
        Pixels(ROW).times(row.0).plus(self.top.0)
    }

    /// The line of a column.
    pub fn x(&self, column: ColumnId) -> Pixels {
        self.spacing.line(column)
    }

    /// The column of this number, if there is one.
    pub fn column(&self, column: ColumnId) -> Option<&'c Column> {
        let chart: &'c Chart = self.chart;
        chart.columns.get(column.0 as usize)
    }

    /// Where the line of a column ends.
    pub fn end_of(&self, column: &Column) -> Pixels {
        match column.ending {
            Ending::Stop(row) => self.y(row),
            _ => self.bottom(),
        }
    }

    /// The edge of what is at the line of a column, at its right or else at its left: of a bar, if it is an
    /// instance's.
    pub fn edge(&self, column: ColumnId, is_right: bool) -> Pixels {
        let half = match self.column(column) {
            Some(
                Column {
                    head: Head::Instance { .. },
                    ..
                },
            ) => BAR,
            _ => 0,
        };
        beside(self.x(column), half, is_right)
    }

    /// The edge of the head of a column.
    pub fn edge_of_head(&self, column: ColumnId, is_right: bool) -> Pixels {
        let half = match self.column(column) {
            Some(column) => half_head(column),
            None => Pixels(0),
        };
        beside(self.x(column), half.0, is_right)
    }

    /// The line of the next column that is drawn, to the right or else to the left.
    pub fn neighbour(&self, from: ColumnId, is_right: bool) -> Option<Pixels> {
        let mut nearest = None;
        for (place, column) in self.chart.columns.iter().enumerate() {
            let Ok(number) = u32::try_from(place) else {
                break;
            };
            if !column.used {
                continue;
            }
            if is_right && from.0 < number {
                return Some(self.x(ColumnId(number)));
            }
            if !is_right && number < from.0 {
                nearest = Some(self.x(ColumnId(number)));
            }
        }
        nearest
    }
}

/// The place so far to the right of another one, or else to its left.
pub fn beside(place: Pixels, far: u32, is_right: bool) -> Pixels {
    if is_right {
        place.plus(far)
    } else {
        place.minus(far)
    }
}
