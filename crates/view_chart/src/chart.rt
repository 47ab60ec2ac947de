//! What a chart shows, in rows and columns.

ghost use Rattle.std.specs.Prelude.{◌≡◌, ◌+◌, ◌-◌, ◌^◌, min};

use port_model::Ticks;
use std::alloc::Global;

/// A row of a chart, from 0 downwards.
#[derive(Clone, Copy, PartialEq, Eq, PartialOrd, Ord)]
pub struct Row(pub u32);

impl Row {
    /// The row so many rows below. One that is too far below is the last one that there may be.
    pub fn below(self, rows: u32) -> Row
        ensures { result.0 ≡ min (self.0 + rows) (2 ^ 32 - 1) }
    {
        Row(self.0.saturating_add(rows))
    }
}

/// A column of a chart, from 0 to the right.
#[derive(Clone, Copy, PartialEq, Eq, PartialOrd, Ord)]
pub struct ColumnId(pub u32);

/// A place where a column has something.
#[derive(Clone, Copy, PartialEq, Eq)]
pub struct Spot {
    pub column: ColumnId,
    pub row: Row,
}

/// Who has a column.
#[derive(Drop)]
pub enum Head {
    Env,
    Instance { number: u32, process: String },
    /// All instances that have no column of their own.
    Others,
}

/// How a column ends.
#[derive(Clone, Copy, PartialEq, Eq)]
pub enum Ending {
    /// The instance goes on after what is drawn.
    Open,
    /// It rests when the run ends.
    Rest,
    /// The run was cut.
    Cut,
    /// It stops, or fails.
    Stop(Row),
}

/// A column: a line from its head to its end.
#[derive(Drop)]
pub struct Column {
    pub head: Head,
    /// Where the instance is created; None: the head is at the top.
    pub created: Option<Row>,
    pub ending: Ending,
    /// Whether something is drawn at it. Instances always have something.
    pub used: bool,
}

/// A time begins above a row.
#[derive(Clone, Copy)]
pub struct TimeLine {
    pub row: Row,
    pub at: Ticks,
}

/// A transition or a part of one, from its first row to its last one.
#[derive(Drop)]
pub struct Bar {
    pub column: ColumnId,
    pub first: Row,
    pub last: Row,
    /// Whether it is behind the sign of its row: it exchanges nothing, and is to be seen above and below that.
    pub is_behind_sign: bool,
    /// Its lines in the trace.
    pub told: String,
}

/// Where an arrow begins.
#[derive(Clone, Copy, PartialEq, Eq)]
pub enum Tail {
    /// At the line of its sender.
    At(Spot),
    /// Near its tip: the signal was sent before what is drawn.
    Earlier(ColumnId),
}

/// Where an arrow ends.
#[derive(Clone, Copy, PartialEq, Eq)]
pub enum Tip {
    /// At the line of its receiver.
    At(Spot),
    /// Nobody takes the signal: it is gone. The arrow leads to this column, if there is one.
    Gone(Option<ColumnId>),
    /// It waits in a port when the run ends.
    Waits(Option<ColumnId>),
    /// It is taken after what is drawn.
    Later(Option<ColumnId>),
}

/// What comes of the signal of an arrow.
#[derive(Clone, Copy, PartialEq, Eq)]
pub enum Fate {
    Taken,
    Discarded,
    Untaken,
}

/// A signal on its way.
#[derive(Drop)]
pub struct Arrow {
    pub tail: Tail,
    pub tip: Tip,
    pub fate: Fate,
    pub label: String,
    pub told: String,
}

/// What is at a line.
#[derive(Clone, Copy, PartialEq, Eq)]
pub enum Sign {
    /// A state that is entered.
    State,
    /// A timer is set.
    Set,
    /// A timer is reset.
    Reset,
    /// A timer expires, and its signal is taken.
    Timeout,
    /// A timer's signal is discarded.
    Discard,
    /// A transition that needs no signal.
    Provided,
    /// A create that shows no new column.
    Create,
    /// The instance ends.
    Stop,
    /// The instance fails.
    Failure,
}

/// A sign at a line, with its label.
#[derive(Drop)]
pub struct Mark {
    pub sign: Sign,
    pub spot: Spot,
    pub label: String,
    pub told: String,
}

/// An instance is created: from its creator to its head.
#[derive(Drop)]
pub struct Creation {
    pub from: ColumnId,
    pub to: ColumnId,
    pub row: Row,
    pub told: String,
}

/// A chart. Nothing of it is placed to the pixel yet.
pub struct Chart {
    pub columns: Vec<Column>,
    pub times: Vec<TimeLine>,
    pub bars: Vec<Bar>,
    pub arrows: Vec<Arrow>,
    pub marks: Vec<Mark>,
    pub creations: Vec<Creation>,
    /// How many rows there are.
    pub rows: u32,
    /// What the last line says.
    pub end: String,
}

/// Written out, so that it is proved here, and not anew in each crate that drops one.
impl Drop for Chart {
    fn drop(self) {
        let Chart {
            columns: _,
            times: _,
            bars: _,
            arrows: _,
            marks: _,
            creations: _,
            rows: _,
            end: _,
        } = self;
    }
}

impl Chart {
    /// The chart with these columns and nothing else.
    pub fn new(alloc: Global, columns: Vec<Column>) -> Chart {
        Chart {
            columns,
            times: Vec::new(alloc),
            bars: Vec::new(alloc),
            arrows: Vec::new(alloc),
            marks: Vec::new(alloc),
            creations: Vec::new(alloc),
            rows: 0,
            end: String::new(alloc),
        }
    }
}

impl Arrow {
    /// The row of its tip, if that is at a line, else of its tail. A level arrow has one row.
    pub fn row(&self) -> Row {
        match (self.tail, self.tip) {
            (_, Tip::At(spot)) | (Tail::At(spot), _) => spot.row,
            _ => Row(0),
        }
    }
}
