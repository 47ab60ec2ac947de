//! Where the columns of a chart are.

use crate::chart::{Chart, ColumnId};
use crate::picture::pixels::{Pixels, width_of, width_of_number};
use crate::picture::room::{Room, rooms_of};
use std::alloc::{AllocError, Global};

/// The least way from one column to the next.
const LEAST_GAP: Pixels = Pixels(116);

/// The most that labels may want of it.
const MOST_GAP: Pixels = Pixels(330);

/// The least width of a picture.
const LEAST_WIDTH: Pixels = Pixels(200);

/// The least width of the place for times at its left edge.
const LEAST_EDGE: Pixels = Pixels(40);

/// Where the lines of the columns are, and how wide the picture is.
#[derive(Drop)]
pub struct Spacing {
    columns: Vec<Pixels>,
    /// How wide the place for times is, at the left edge.
    pub times: Pixels,
    pub width: Pixels,
}

impl Spacing {
    /// The spacing of a chart: its labels fit between the columns, unless they are very long.
    pub fn new(alloc: Global, chart: &Chart) -> Result<Self, AllocError> {
        let rooms = rooms_of(alloc, chart)?;
        let mut columns = Vec::with_capacity(alloc, chart.columns.len())?;
        let times = width_of_times(chart);
        let mut place = times;
        let mut before: Option<Room> = None;
        for (column, room) in chart.columns.iter().zip(rooms.iter()) {
            if column.used {
                let gap = match before {
                    Some(before) => gap_between(before, *room),
                    None => room.half.or_more(room.left.or_less(MOST_GAP)),
                };
                place = place.plus(gap.0);
                before = Some(*room);
            }
            columns.push(place)?;
        }
        let last = match before {
            Some(before) => before.half.or_more(before.right.or_less(MOST_GAP)),
            None => LEAST_EDGE,
        };
        Ok(Spacing {
            columns,
            times,
            width: place
                .plus(last.0)
                .plus(10)
                .or_more(width_of(chart.end.as_str()).plus(80))
                .or_more(LEAST_WIDTH),
        })
    }

    /// The line of a column.
    pub fn line(&self, column: ColumnId) -> Pixels {
        match self.columns.get(column.0 as usize) {
            Some(place) => *place,
            None => Pixels(0),
        }
    }
}

/// The way from one column to the next.
fn gap_between(before: Room, after: Room) -> Pixels {
    let labels = before.right.or_more(after.left).or_less(MOST_GAP);
    let middles = before.half.plus(after.half.0).plus(14);
    LEAST_GAP.or_more(labels).or_more(middles)
}

/// How wide the place for times is.
fn width_of_times(chart: &Chart) -> Pixels {
    let mut width = LEAST_EDGE;
    for time in &chart.times {
        width = width.or_more(width_of_number(time.at.get()).plus(22));
    }
    width
}
