//! Outputs: each is an arrow.

use crate::chart::{Arrow, ColumnId, Fate, Row, Spot, Tail, Tip};
use crate::rows::Layout;
use crate::words::{label_with, push_instance, push_target, signal_label};
use port_model::{SignalId, Ticks, Value};
use run_record::Record;
use sdl_system::Target;
use std::alloc::AllocError;
use view_timeline::Link;

impl<'r> Layout<'r> {
    /// Draws an output. Whether its signal is taken shows later.
    pub fn output(
        &mut self,
        column: ColumnId,
        record: &Record,
        signal: SignalId,
        values: &[Value],
        target: Target,
        link: Link,
        at: Ticks,
    ) -> Result<(), AllocError> {
        let row = self.new_row(column, 1);
        self.cover(row);
        let (tip, remark) = self.tip(row, target, link);
        if let Link::Arrow(arrow) = link {
            self.sent.insert(arrow.0, self.chart.arrows.len())?;
        }
        let signal = signal_label(self.alloc, self.system, signal, values)?;
        let mut sender = String::new(self.alloc);
        push_instance(&mut sender, self.system, record)?;
        let told = self.sent_words(sender.as_str(), signal.as_str(), target, tip, at)?;
        let label = label_with(self.alloc, signal.as_str(), remark, target, tip)?;
        self.chart.arrows.push(Arrow {
            tail: Tail::At(Spot { column, row }),
            tip,
            fate: match tip {
                Tip::Gone(_) | Tip::Waits(_) => Fate::Untaken,
                _ => Fate::Taken,
            },
            label,
            told,
        })?;
        Ok(())
    }

    /// What is told of a signal that is sent.
    pub fn sent_words(
        &self,
        sender: &str,
        signal: &str,
        target: Target,
        tip: Tip,
        at: Ticks,
    ) -> Result<String, AllocError> {
        let mut told = String::new(self.alloc);
        write!(told, "{sender} sends {signal} to ")?;
        push_target(&mut told, self.system, self.report, target)?;
        let ticks = at.get();
        write!(told, " at {ticks}")?;
        told.push_str(match tip {
            Tip::At(_) | Tip::Later(_) => "",
            Tip::Gone(_) => ", and nobody takes it",
            Tip::Waits(_) => ", and it waits there when the run ends",
        })?;
        Ok(told)
    }

    /// Where an output goes, as far as is known when it is made, and a remark on it.
    pub fn tip(&mut self, row: Row, target: Target, link: Link) -> (Tip, &'static str) {
        match target {
            Target::Env => {
                let column = self.env();
                (Tip::At(Spot { column, row }), "")
            }
            Target::Null => (Tip::Gone(None), " (to null)"),
            Target::Nobody => (Tip::Gone(None), " (to nobody)"),
            Target::Instance(number) => self.tip_at(row, number, link),
        }
    }

    /// Where an output to an instance goes. What waits for one that doesn't live on is gone with it.
    fn tip_at(&mut self, row: Row, number: u32, link: Link) -> (Tip, &'static str) {
        let receiver = self.plan.column_of(number);
        match link {
            Link::Waits if self.living.contains(&number) => (Tip::Waits(receiver), " (waits)"),
            Link::Gone | Link::Waits => (Tip::Gone(receiver), " (gone)"),
            Link::Plain | Link::Arrow(_) => match receiver {
                Some(column) => (Tip::Later(Some(column)), ""),
                None => {
                    let column = self.others();
                    (Tip::At(Spot { column, row }), "")
                }
            },
        }
    }
}
