//! What happens at one column alone: states, timers, creates, and ends.

use crate::chart::{ColumnId, Creation, Ending, Mark, Row, Sign, Spot};
use crate::passage::Passage;
use crate::rows::Layout;
use crate::words::{clipped, push_instance, signal_label};
use port_model::Value;
use run_record::{Entry, Record};
use sdl_report::{process_name, state_name};
use sdl_system::StateId;
use std::alloc::AllocError;

impl<'r> Layout<'r> {
    /// Draws an event that is at one column alone.
    pub fn act(
        &mut self,
        column: ColumnId,
        record: &Record,
        entry: &Entry,
        values: &[Value],
    ) -> Result<(), AllocError> {
        match entry {
            Entry::Set { timer, due } => {
                let mut label = signal_label(self.alloc, self.system, *timer, values)?;
                write!(label, ", due {due}")?;
                self.mark(column, record, Sign::Set, label)
            }
            Entry::Reset { timer } => {
                let label = signal_label(self.alloc, self.system, *timer, values)?;
                self.mark(column, record, Sign::Reset, label)
            }
            Entry::Provided { number, .. } => {
                let mut label = String::new(self.alloc);
                write!(label, "provided {number}")?;
                self.mark(column, record, Sign::Provided, label)
            }
            Entry::Create { process, pid } => {
                let name = process_name(self.system, *process);
                self.create(column, record, name, *pid)
            }
            Entry::Stop => self.end(column, record, Sign::Stop, String::new(self.alloc)),
            Entry::Failed { why } | Entry::FailedAt { why, .. } => {
                let mut label = String::new(self.alloc);
                write!(label, "{why}")?;
                self.end(column, record, Sign::Failure, label)
            }
            _ => Ok(()),
        }
    }

    /// Draws a sign in a new row.
    pub fn mark(
        &mut self,
        column: ColumnId,
        record: &Record,
        sign: Sign,
        label: String,
    ) -> Result<(), AllocError> {
        let row = self.new_row(column, 1);
        self.cover(row);
        let told = self.told(record, sign, label.as_str())?;
        self.chart.marks.push(Mark {
            sign,
            spot: Spot { column, row },
            label,
            told,
        })?;
        Ok(())
    }

    /// What a sign says, in words.
    fn told(&self, record: &Record, sign: Sign, label: &str) -> Result<String, AllocError> {
        let mut told = String::new(self.alloc);
        push_instance(&mut told, self.system, record)?;
        told.push_str(match sign {
            Sign::State => " is in ",
            Sign::Set => " sets ",
            Sign::Reset => " resets ",
            Sign::Timeout => " takes the timer ",
            Sign::Discard => " discards the timer ",
            Sign::Provided => " begins the transition ",
            Sign::Create => " ",
            Sign::Stop => " stops",
            Sign::Failure => " fails: ",
        })?;
        told.push_str(label)?;
        Ok(told)
    }

    /// Draws a new state, if it is another one. Starts that only enter a state share a row.
    pub fn next_state(
        &mut self,
        column: ColumnId,
        passage: &Passage,
        state: StateId,
    ) -> Result<(), AllocError> {
        let Some(progress) = self.progress.get_mut(column.0 as usize) else {
            return Ok(());
        };
        if progress.state == Some(state) {
            return Ok(());
        }
        progress.state = Some(state);
        let free = progress.free;
        let record = passage.record;
        let name = state_name(self.system, record.process(), state);
        let label = clipped(self.alloc, name)?;
        let told = self.told(record, Sign::State, name)?;
        let row = if is_mere_start(passage) {
            self.start_row(column, free)
        } else {
            self.new_row(column, 1)
        };
        self.sign = Some(row);
        self.chart.marks.push(Mark {
            sign: Sign::State,
            spot: Spot { column, row },
            label,
            told,
        })?;
        Ok(())
    }

    /// The row of a start that only enters a state.
    fn start_row(&mut self, column: ColumnId, free: Row) -> Row {
        if let Some(row) = self.starts
            && free <= row
        {
            self.reserve(column, row.below(1));
            return row;
        }
        let row = self.new_row(column, 1);
        self.starts = Some(row);
        row
    }

    /// Draws the end of an instance.
    fn end(
        &mut self,
        column: ColumnId,
        record: &Record,
        sign: Sign,
        label: String,
    ) -> Result<(), AllocError> {
        let row = self.new_row(column, 1);
        self.sign = Some(row);
        let told = self.told(record, sign, label.as_str())?;
        self.chart.marks.push(Mark {
            sign,
            spot: Spot { column, row },
            label,
            told,
        })?;
        if let Some(line) = self.chart.columns.get_mut(column.0 as usize) {
            line.ending = Ending::Stop(row);
        }
        Ok(())
    }

    /// Notes how a record closes, if all before is drawn.
    pub fn close(&mut self, column: ColumnId, passage: &Passage) {
        let left_out = match self.progress.get(column.0 as usize) {
            Some(progress) => progress.left_out,
            None => true,
        };
        if !left_out && let Some(line) = self.chart.columns.get_mut(column.0 as usize) {
            line.ending = match passage.first() {
                Some(Entry::Rest { .. }) => Ending::Rest,
                _ => Ending::Cut,
            };
        }
    }

    /// Draws a create: an arrow to the head of the new instance, if it has a column.
    fn create(
        &mut self,
        column: ColumnId,
        record: &Record,
        process: &str,
        number: Option<u32>,
    ) -> Result<(), AllocError> {
        let mut label = String::new(self.alloc);
        let Some(number) = number else {
            write!(label, "creates no {process}")?;
            return self.mark(column, record, Sign::Create, label);
        };
        write!(label, "creates {process} #{number}")?;
        let Some(to) = self.plan.column_of(number) else {
            return self.mark(column, record, Sign::Create, label);
        };
        let row = self.new_row(column, 2);
        self.cover(row);
        self.reserve(to, self.row);
        if let Some(line) = self.chart.columns.get_mut(to.0 as usize) {
            line.created = Some(row);
        }
        let told = self.told(record, Sign::Create, label.as_str())?;
        self.chart.creations.push(Creation {
            from: column,
            to,
            row,
            told,
        })?;
        Ok(())
    }
}

/// Whether a move is a start that only enters a state.
fn is_mere_start(passage: &Passage) -> bool {
    if passage.goes_on() {
        return false;
    }
    passage.events().all(|told| {
        matches!(
            told.entry,
            Entry::Start { .. } | Entry::Task { .. } | Entry::NextState { .. }
        )
    })
}
