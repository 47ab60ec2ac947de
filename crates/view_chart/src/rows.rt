//! The rows of a chart that is being laid out.

use crate::chart::{Arrow, Bar, Chart, ColumnId, Fate, Row, TimeLine, Tip};
use crate::columns::columns_of;
use crate::layout::Subject;
use crate::passage::Passage;
use crate::plan::{Plan, is_wanted};
use crate::selection::Selection;
use crate::takes::Take;
use crate::words::lines_of;
use indexmap::{IndexMap, IndexSet};
use port_model::{Ticks, Value};
use run_record::{Entry, Report};
use sdl_system::{StateId, System};
use std::alloc::{AllocError, Global};
use view_text::Sending;
use view_timeline::Link;

/// At most so many transitions are drawn.
pub const MOST_TRANSITIONS: u32 = 2_000;

/// How far a column is drawn.
#[derive(Clone, Copy)]
pub struct Progress {
    /// The first row that is free.
    pub free: Row,
    pub state: Option<StateId>,
    /// Whether more of it was left out.
    pub left_out: bool,
}

/// Rows of a transition, from the first to the last.
#[derive(Clone, Copy)]
pub struct Span {
    pub first: Row,
    pub last: Row,
}

/// A chart that is being laid out.
#[derive(Drop)]
pub struct Layout<'r> {
    pub alloc: Global,
    pub system: &'r System,
    pub report: &'r Report,
    /// Who lives on when all is told.
    pub living: &'r IndexSet<u32>,
    /// The lost signals of the script, how many of them are passed, and how many events are told.
    pub lost: &'r [Sending<'r>],
    pub passed: usize,
    pub told: usize,
    pub plan: Plan,
    pub chart: Chart,
    /// The first row below all others.
    pub row: Row,
    pub clock: Option<Ticks>,
    /// The first row of the time that it is.
    pub time_row: Row,
    pub progress: Vec<Progress>,
    /// The arrows that are on their way, by their numbers: where they are in the chart.
    pub sent: IndexMap<u32, usize>,
    /// The row that starts share, while nothing else comes.
    pub starts: Option<Row>,
    /// The rows in which the transition that is drawn exchanges something.
    pub span: Option<Span>,
    /// The row of the state that it enters, or of its end.
    pub sign: Option<Row>,
    pub drawn: u32,
    pub left_out: u32,
}

impl<'r> Layout<'r> {
    /// The chart without a row.
    pub fn new(alloc: Global, subject: &Subject<'r>, plan: Plan) -> Result<Self, AllocError> {
        let system = subject.system;
        let report = subject.report;
        let columns = columns_of(alloc, system, report, &plan)?;
        let progress = progress_of(alloc, columns.len())?;
        Ok(Layout {
            alloc,
            system,
            report,
            living: &subject.timeline.living,
            lost: subject.lost,
            passed: 0,
            told: 0,
            plan,
            chart: Chart::new(alloc, columns),
            row: Row(0),
            clock: None,
            time_row: Row(0),
            progress,
            sent: IndexMap::new(alloc),
            starts: None,
            span: None,
            sign: None,
            drawn: 0,
            left_out: 0,
        })
    }

    /// Draws a move, if it is wanted.
    pub fn passage(&mut self, passage: &Passage, selection: &Selection) -> Result<(), AllocError> {
        let Some(column) = self.plan.column_of_record(passage.record) else {
            return Ok(());
        };
        let Some(at) = passage.at else {
            self.close(column, passage);
            return Ok(());
        };
        if !is_wanted(passage, selection) {
            self.leave_out(column, selection.until.is_some_and(|until| until < at));
            return Ok(());
        }
        if self.drawn >= MOST_TRANSITIONS {
            self.left_out = self.left_out.saturating_add(1);
            self.leave_out(column, true);
            return Ok(());
        }
        self.drawn += 1;
        self.begin_time(at)?;
        self.transition(column, passage, at)
    }

    /// More of a column is left out, at its end.
    fn leave_out(&mut self, column: ColumnId, at_end: bool) {
        if at_end && let Some(progress) = self.progress.get_mut(column.0 as usize) {
            progress.left_out = true;
        }
    }

    /// A new time has a line.
    pub fn begin_time(&mut self, at: Ticks) -> Result<(), AllocError> {
        if self.clock != Some(at) {
            self.clock = Some(at);
            self.chart.times.push(TimeLine { row: self.row, at })?;
            self.row = self.row.below(1);
            self.time_row = self.row;
            self.starts = None;
        }
        Ok(())
    }

    /// Draws a transition or a part of one: its bar, and what happens at it.
    fn transition(
        &mut self,
        column: ColumnId,
        passage: &Passage,
        at: Ticks,
    ) -> Result<(), AllocError> {
        self.span = None;
        self.sign = None;
        for (told, link) in passage.events().zip(passage.links) {
            self.event(column, passage, &told.entry, told.values, *link, at)?;
        }
        self.bar(column, passage)
    }

    /// Draws the bar of the transition that is drawn: where it exchanges something, else behind its state or its end.
    fn bar(&mut self, column: ColumnId, passage: &Passage) -> Result<(), AllocError> {
        let told = lines_of(self.alloc, self.system, passage)?;
        let (first, last, is_behind_sign) = match (self.span, self.sign) {
            (Some(Span { first, last }), _) => (first, last, false),
            (None, Some(row)) => (row, row, true),
            (None, None) => {
                let row = self.new_row(column, 1);
                (row, row, false)
            }
        };
        self.chart.bars.push(Bar {
            column,
            first,
            last,
            is_behind_sign,
            told,
        })?;
        Ok(())
    }

    /// Draws an event.
    fn event(
        &mut self,
        column: ColumnId,
        passage: &Passage,
        entry: &Entry,
        values: &[Value],
        link: Link,
        at: Ticks,
    ) -> Result<(), AllocError> {
        match entry {
            Entry::Consumed { got, .. } => {
                self.take(column, passage.record, *got, values, link, Take::Input)
            }
            Entry::Prior { got, .. } => {
                self.take(column, passage.record, *got, values, link, Take::Priority)
            }
            Entry::Discarded { got, .. } => {
                self.take(column, passage.record, *got, values, link, Take::Discard)
            }
            Entry::Output { signal, target, .. } => {
                self.output(column, passage.record, *signal, values, *target, link, at)
            }
            Entry::NextState { state } => self.next_state(column, passage, *state),
            _ => self.act(column, passage.record, entry, values),
        }
    }

    /// A new row, for something at a column.
    pub fn new_row(&mut self, column: ColumnId, rows: u32) -> Row {
        let row = self.row;
        self.row = row.below(rows);
        self.starts = None;
        self.reserve(column, self.row);
        row
    }

    /// What follows at a column comes below this row.
    pub fn reserve(&mut self, column: ColumnId, free: Row) {
        if let Some(progress) = self.progress.get_mut(column.0 as usize) {
            progress.free = progress.free.max(free);
        }
    }

    /// The transition has something in this row.
    pub fn cover(&mut self, row: Row) {
        self.span = match self.span {
            Some(Span { first, last }) => Some(Span {
                first: first.min(row),
                last: last.max(row),
            }),
            None => Some(Span {
                first: row,
                last: row,
            }),
        };
    }

    /// The chart, with what its last line says.
    pub fn into_chart(self, stuck: Option<u32>) -> Result<Chart, AllocError> {
        let Layout {
            report,
            plan,
            mut chart,
            row,
            left_out,
            ..
        } = self;
        chart.rows = row.0;
        tell_later(&mut chart.arrows)?;
        push_end(&mut chart.end, report, stuck)?;
        push_more(&mut chart.end, left_out, plan.more)?;
        Ok(chart)
    }
}

/// Appends how the run ends, or where the chart does before that.
fn push_end(text: &mut String, report: &Report, stuck: Option<u32>) -> Result<(), AllocError> {
    let end = report.end.get();
    match stuck {
        Some(number) => write!(
            text,
            "the chart ends here: instance #{number} takes a signal of which no output is known"
        ),
        None if report.whole => write!(text, "end {end} whole"),
        None => write!(text, "end {end} cut"),
    }
}

/// Appends how much more there is than what is drawn, if there is any.
fn push_more(text: &mut String, transitions: u32, instances: u32) -> Result<(), AllocError> {
    if transitions == 0 && instances == 0 {
        return Ok(());
    }
    text.push_str("; not drawn: ")?;
    push_count(text, transitions, "transition")?;
    text.push_str(" and ")?;
    push_count(text, instances, "instance")?;
    text.push_str(" more; --only, --from and --until choose")
}

/// Appends `1 transition` or `2 transitions`.
fn push_count(text: &mut String, count: u32, noun: &str) -> Result<(), AllocError> {
    let ending = if count == 1 { "" } else { "s" };
    write!(text, "{count} {noun}{ending}")
}

/// So many columns of which nothing is drawn.
fn progress_of(alloc: Global, columns: usize) -> Result<Vec<Progress>, AllocError> {
    let mut progress = Vec::new(alloc);
    progress.resize(
        columns,
        Progress {
            free: Row(0),
            state: None,
            left_out: false,
        },
    )?;
    Ok(progress)
}

/// The labels of signals that are taken after what is drawn say so.
fn tell_later(arrows: &mut Vec<Arrow>) -> Result<(), AllocError> {
    for arrow in arrows.iter_mut() {
        if let Tip::Later(_) = arrow.tip {
            arrow.fate = Fate::Untaken;
            arrow.label.push_str(" (taken later)")?;
        }
    }
    Ok(())
}
