//! Which instances have a column, and which moves are drawn.

use crate::chart::ColumnId;
use crate::layout::Subject;
use crate::passage::{MoveWalk, Passage};
use crate::selection::Selection;
use indexmap::IndexMap;
use run_record::{Record, Report};
use sdl_report::process_name;
use std::alloc::{AllocError, Global};
use view_timeline::Timeline;

/// At most so many columns are drawn, apart from the environment's and the others'.
pub const MOST_COLUMNS: u32 = 100;

/// The columns of records: those of the first instances that are wanted and that do something at the times that are
/// wanted.
#[derive(Drop)]
pub struct Plan {
    /// By the numbers of their instances.
    columns: IndexMap<u32, ColumnId>,
    /// How many have one.
    pub count: u32,
    /// How many more would have one if there were no limit.
    pub more: u32,
}

impl Plan {
    /// The columns for a selection. Column 0 is the environment's.
    pub fn new(
        alloc: Global,
        subject: &Subject<'_>,
        selection: &Selection,
    ) -> Result<Self, AllocError> {
        let report = subject.report;
        let acting = acting(alloc, report, subject.timeline, selection)?;
        let mut plan = Plan {
            columns: IndexMap::new(alloc),
            count: 0,
            more: 0,
        };
        for (record, acts) in report.records.iter().zip(acting.iter()) {
            let process = process_name(subject.system, record.process());
            if *acts && selection.has_instance(record.pid(), process) {
                plan.give(record.pid())?;
            }
        }
        Ok(plan)
    }

    /// The instance of this number has a column, if there is room for one more.
    fn give(&mut self, number: u32) -> Result<(), AllocError> {
        if self.count < MOST_COLUMNS {
            self.count += 1;
            self.columns.insert(number, ColumnId(self.count))?;
        } else {
            self.more = self.more.saturating_add(1);
        }
        Ok(())
    }

    /// The column of the instance of this number, if it has one.
    pub fn column_of(&self, number: u32) -> Option<ColumnId> {
        self.columns.get(&number).copied()
    }

    /// The column of a record.
    pub fn column_of_record(&self, record: &Record) -> Option<ColumnId> {
        self.column_of(record.pid())
    }
}

/// Which records have a move at a time that is wanted.
fn acting(
    alloc: Global,
    report: &Report,
    timeline: &Timeline,
    selection: &Selection,
) -> Result<Vec<bool>, AllocError> {
    let mut acting = Vec::new(alloc);
    acting.resize(report.records.len(), false)?;
    let mut walk = MoveWalk::new(alloc, report, timeline)?;
    for one in &timeline.moves {
        let Some(passage) = walk.passage(one) else {
            break;
        };
        if is_wanted(&passage, selection)
            && let Some(acts) = acting.get_mut(one.record.0 as usize)
        {
            *acts = true;
        }
    }
    Ok(acting)
}

/// Whether a move is made at a time that is wanted.
pub fn is_wanted(passage: &Passage, selection: &Selection) -> bool {
    match passage.at {
        Some(at) => selection.has_time(at),
        None => false,
    }
}
