//! Takes from the port: tips of arrows, and timers that expire.

use crate::chart::{Arrow, ColumnId, Fate, Row, Sign, Spot, Tail, Tip};
use crate::rows::Layout;
use crate::words::{push_instance, push_number_of, signal_label};
use port_model::Value;
use run_record::{Origin, Record, Stimulus};
use std::alloc::{AllocError, Global};
use view_timeline::Link;

/// How a signal is taken.
#[derive(Clone, Copy)]
pub enum Take {
    Input,
    Priority,
    Discard,
}

impl Take {
    fn fate(self) -> Fate {
        match self {
            Take::Discard => Fate::Discarded,
            _ => Fate::Taken,
        }
    }

    /// The sign of a timer's signal that is taken.
    fn sign(self) -> Sign {
        match self {
            Take::Discard => Sign::Discard,
            _ => Sign::Timeout,
        }
    }

    /// What a label says of it.
    fn remark(self) -> &'static str {
        match self {
            Take::Input => "",
            Take::Priority => " (priority)",
            Take::Discard => " (discarded)",
        }
    }

    /// What is told of it.
    fn told(self) -> &'static str {
        match self {
            Take::Input => ", taken",
            Take::Priority => ", taken by a priority input",
            Take::Discard => ", discarded",
        }
    }
}

impl<'r> Layout<'r> {
    /// Draws what is taken from the port.
    pub fn take(
        &mut self,
        column: ColumnId,
        record: &Record,
        got: Stimulus,
        values: &[Value],
        link: Link,
        how: Take,
    ) -> Result<(), AllocError> {
        if let Link::Arrow(arrow) = link
            && let Some(place) = self.sent.get(&arrow.0).copied()
        {
            return self.land(column, place, how);
        }
        let mut label = signal_label(self.alloc, self.system, got.name, values)?;
        match got.origin {
            Origin::Timer => {
                label.push_str(how.remark())?;
                self.mark(column, record, how.sign(), label)
            }
            origin => self.receive(column, record, origin, label.as_str(), how),
        }
    }

    /// The arrow at this place of the chart has its tip here.
    fn land(&mut self, column: ColumnId, place: usize, how: Take) -> Result<(), AllocError> {
        let Some(arrow) = self.chart.arrows.get(place) else {
            return Ok(());
        };
        let sent = arrow.row();
        let row = self.landing_row(column, sent);
        self.cover(row);
        let clock = self.clock;
        if let Some(arrow) = self.chart.arrows.get_mut(place) {
            arrow.tip = Tip::At(Spot { column, row });
            arrow.fate = how.fate();
            arrow.label.push_str(how.remark())?;
            arrow.told.push_str(how.told())?;
            if sent < row
                && let Some(at) = clock
            {
                let ticks = at.get();
                write!(arrow.told, " at {ticks}")?;
            }
        }
        Ok(())
    }

    /// The row in which an arrow has its tip that begins in the row `sent`: that one, if it is free.
    fn landing_row(&mut self, column: ColumnId, sent: Row) -> Row {
        let free = match self.progress.get(column.0 as usize) {
            Some(progress) => progress.free,
            None => self.row,
        };
        if free <= sent && self.time_row <= sent && sent < self.row {
            self.reserve(column, sent.below(1));
            self.starts = None;
            return sent;
        }
        self.new_row(column, 1)
    }

    /// Draws the take of a signal whose output isn't drawn.
    fn receive(
        &mut self,
        column: ColumnId,
        record: &Record,
        origin: Origin,
        signal: &str,
        how: Take,
    ) -> Result<(), AllocError> {
        let row = self.new_row(column, 1);
        self.cover(row);
        let tail = self.tail(row, origin);
        let told = self.received_words(record, origin, signal, how)?;
        let label = label_of(self.alloc, signal, origin, tail, how)?;
        self.chart.arrows.push(Arrow {
            tail,
            tip: Tip::At(Spot { column, row }),
            fate: how.fate(),
            label,
            told,
        })?;
        Ok(())
    }

    /// Where the arrow of such a signal begins.
    fn tail(&mut self, row: Row, origin: Origin) -> Tail {
        let Origin::Instance(number) = origin else {
            let column = self.env();
            return Tail::At(Spot { column, row });
        };
        match self.plan.column_of(number) {
            Some(sender) => Tail::Earlier(sender),
            None => {
                let column = self.others();
                Tail::At(Spot { column, row })
            }
        }
    }

    /// What is told of such a take.
    fn received_words(
        &self,
        record: &Record,
        origin: Origin,
        signal: &str,
        how: Take,
    ) -> Result<String, AllocError> {
        let mut told = String::new(self.alloc);
        match origin {
            Origin::Instance(number) => {
                push_number_of(&mut told, self.system, self.report, number)?;
            }
            _ => told.push_str("env")?,
        }
        write!(told, " sends {signal} to ")?;
        push_instance(&mut told, self.system, record)?;
        if let Some(at) = self.clock {
            let ticks = at.get();
            write!(told, " at {ticks}")?;
        }
        told.push_str(how.told())?;
        Ok(told)
    }
}

/// The label of a signal whose output isn't drawn, with the number of its sender if the arrow doesn't show it.
fn label_of(
    alloc: Global,
    signal: &str,
    origin: Origin,
    tail: Tail,
    how: Take,
) -> Result<String, AllocError> {
    let mut label = String::new(alloc);
    label.push_str(signal)?;
    if let Tail::Earlier(_) = tail
        && let Origin::Instance(number) = origin
    {
        write!(label, " from #{number}")?;
    }
    label.push_str(how.remark())?;
    Ok(label)
}
