//! How much room the labels, signs and heads of a chart want around its columns.

use crate::chart::{Arrow, Chart, Column, ColumnId, Head, Mark, Sign, Spot, Tail, Tip};
use crate::picture::ends::{OtherEnd, is_far};
use crate::picture::pixels::{Pixels, width_of, width_of_number};
use std::alloc::{AllocError, Global};

/// What is wanted around the line of a column.
#[derive(Clone, Copy)]
pub struct Room {
    /// For labels at its left.
    pub left: Pixels,
    /// For labels at its right.
    pub right: Pixels,
    /// For what is in the middle, at each side.
    pub half: Pixels,
}

/// What is wanted around each column.
pub fn rooms_of(alloc: Global, chart: &Chart) -> Result<Vec<Room>, AllocError> {
    let mut rooms = rooms_of_heads(alloc, chart)?;
    make_room_for_marks(&mut rooms, chart);
    for arrow in &chart.arrows {
        make_room_for_arrow(&mut rooms, chart, arrow);
    }
    Ok(rooms)
}

/// What the head of each column wants.
fn rooms_of_heads(alloc: Global, chart: &Chart) -> Result<Vec<Room>, AllocError> {
    let mut rooms = Vec::with_capacity(alloc, chart.columns.len())?;
    for column in &chart.columns {
        rooms.push(Room {
            left: Pixels(0),
            right: Pixels(0),
            half: half_head(column).plus(4),
        })?;
    }
    Ok(rooms)
}

/// Half of the width of a head.
pub fn half_head(column: &Column) -> Pixels {
    let name = match &column.head {
        Head::Env => "env",
        Head::Others => "others",
        Head::Instance { process, .. } => process.as_str(),
    };
    let width = width_of(name).plus(18).or_more(Pixels(36));
    Pixels(width.0 / 2)
}

fn make_room_for_marks(rooms: &mut Vec<Room>, chart: &Chart) {
    for mark in &chart.marks {
        if let Some(room) = rooms.get_mut(mark.spot.column.0 as usize) {
            make_room_for_mark(room, mark);
        }
    }
}

fn make_room_for_mark(room: &mut Room, mark: &Mark) {
    let width = width_of(mark.label.as_str());
    match mark.sign {
        Sign::State => room.half = room.half.or_more(Pixels(width.0 / 2).plus(9)),
        Sign::Set | Sign::Reset | Sign::Timeout | Sign::Discard => {
            room.right = room.right.or_more(width.plus(54));
        }
        Sign::Provided | Sign::Create | Sign::Stop | Sign::Failure => {
            room.right = room.right.or_more(width.plus(20));
        }
    }
}

/// Makes room for the labels of an arrow.
fn make_room_for_arrow(rooms: &mut Vec<Room>, chart: &Chart, arrow: &Arrow) {
    match (arrow.tail, arrow.tip) {
        (Tail::At(from), Tip::At(to)) if from.row < to.row => {
            make_room_for_slope(rooms, chart, arrow, from, to);
        }
        (Tail::At(from), Tip::At(Spot { column: to, .. })) => {
            make_room_for_level(rooms, chart, arrow, from, to);
        }
        (Tail::At(from), Tip::Waits(Some(to)) | Tip::Later(Some(to))) if to != from.column => {
            make_room_for_level(rooms, chart, arrow, from, to);
        }
        (Tail::At(from), Tip::Gone(to) | Tip::Waits(to) | Tip::Later(to)) => {
            let is_right = leads_right(from.column, to);
            make_room(rooms, from.column, is_right, width_of_label(arrow).plus(34));
        }
        (Tail::Earlier(from), Tip::At(to)) => {
            let is_right = to.column < from;
            make_room(rooms, to.column, is_right, width_of_label(arrow).plus(34));
        }
        (Tail::Earlier(_), _) => (),
    }
}

/// The labels of a slope are beyond its ends.
fn make_room_for_slope(rooms: &mut Vec<Room>, chart: &Chart, arrow: &Arrow, from: Spot, to: Spot) {
    let (from, to, is_far) = (from.column, to.column, is_far(from, to));
    let more = if from == to { 36 } else { 22 };
    let label = width_of_label(arrow).plus(more);
    if is_far {
        let tail = label.plus(width_of_end(chart, OtherEnd::To(to)).0);
        make_room(rooms, from, to <= from, tail);
        let tip = label.plus(width_of_end(chart, OtherEnd::From(from)).0);
        make_room(rooms, to, from <= to, tip);
    } else {
        make_room(rooms, to, from <= to, label);
    }
}

/// The labels of a level arrow are between its ends.
fn make_room_for_level(
    rooms: &mut Vec<Room>,
    chart: &Chart,
    arrow: &Arrow,
    from: Spot,
    to: ColumnId,
) {
    let Spot { column, row } = from;
    let label = width_of_label(arrow).plus(34);
    if is_far(from, Spot { column: to, row }) {
        let tail = label.plus(width_of_end(chart, OtherEnd::To(to)).0);
        make_room(rooms, column, column < to, tail);
        let tip = label.plus(width_of_end(chart, OtherEnd::From(column)).0);
        make_room(rooms, to, to < column, tip);
    } else {
        make_room(rooms, column, column < to, label);
    }
}

/// Makes room at a column, at its right or else at its left.
fn make_room(rooms: &mut Vec<Room>, column: ColumnId, is_right: bool, wanted: Pixels) {
    if let Some(room) = rooms.get_mut(column.0 as usize) {
        if is_right {
            room.right = room.right.or_more(wanted);
        } else {
            room.left = room.left.or_more(wanted);
        }
    }
}

fn width_of_label(arrow: &Arrow) -> Pixels {
    width_of(arrow.label.as_str())
}

/// How wide it is what a label says of the other end.
fn width_of_end(chart: &Chart, other: OtherEnd) -> Pixels {
    let word = match other {
        OtherEnd::To(_) => " to #",
        OtherEnd::From(_) => " from #",
    };
    let name = match chart.columns.get(other.column().0 as usize) {
        Some(
            Column {
                head: Head::Instance { number, .. },
                ..
            },
        ) => width_of_number(u64::from(*number)),
        _ => width_of("others"),
    };
    width_of(word).plus(name.0)
}

/// Whether an arrow leads to the right: to another column there, or to none.
pub fn leads_right(from: ColumnId, to: Option<ColumnId>) -> bool {
    match to {
        Some(to) => from <= to,
        None => true,
    }
}
