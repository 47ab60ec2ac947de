//! The columns of a chart.

use crate::chart::{Column, ColumnId, Ending, Head};
use crate::plan::Plan;
use crate::rows::Layout;
use crate::words::clipped;
use run_record::Report;
use sdl_report::process_name;
use sdl_system::System;
use std::alloc::{AllocError, Global};

/// The environment's column.
const ENV: ColumnId = ColumnId(0);

impl<'r> Layout<'r> {
    /// The column of the instances that have none of their own.
    pub fn others(&mut self) -> ColumnId {
        let others = ColumnId(self.plan.count.saturating_add(1));
        self.use_column(others);
        others
    }

    /// The column of the environment.
    pub fn env(&mut self) -> ColumnId {
        self.use_column(ENV);
        ENV
    }

    fn use_column(&mut self, column: ColumnId) {
        if let Some(column) = self.chart.columns.get_mut(column.0 as usize) {
            column.used = true;
        }
    }
}

/// The columns: the environment, the instances that have one, and the others.
pub fn columns_of(
    alloc: Global,
    system: &System,
    report: &Report,
    plan: &Plan,
) -> Result<Vec<Column>, AllocError> {
    let mut columns = Vec::new(alloc);
    columns.push(column_of(Head::Env, false))?;
    for record in &report.records {
        if plan.column_of_record(record).is_some() {
            let name = process_name(system, record.process());
            let process = clipped(alloc, name)?;
            let number = record.pid();
            columns.push(column_of(Head::Instance { number, process }, true))?;
        }
    }
    columns.push(column_of(Head::Others, false))?;
    Ok(columns)
}

fn column_of(head: Head, used: bool) -> Column {
    Column {
        head,
        created: None,
        ending: Ending::Open,
        used,
    }
}
