//! Signals of the script that nobody took: each is an arrow from the environment.

use crate::chart::{Arrow, Fate, Spot, Tail};
use crate::passage::Passage;
use crate::rows::{Layout, MOST_TRANSITIONS};
use crate::selection::Selection;
use crate::words::{label_with, signal_label};
use port_model::Ticks;
use sdl_system::Target;
use std::alloc::AllocError;
use view_text::Sending;
use view_timeline::Link;

impl<'r> Layout<'r> {
    /// Draws those that are sent before a move.
    pub fn lost_before(
        &mut self,
        passage: &Passage,
        selection: &Selection,
    ) -> Result<(), AllocError> {
        let told = self.told;
        self.told = told.saturating_add(passage.links.len());
        self.lost_up_to(told, selection)
    }

    /// Draws those that are left when all moves are told.
    pub fn lost_at_end(&mut self, selection: &Selection) -> Result<(), AllocError> {
        self.lost_up_to(usize::MAX, selection)
    }

    /// Draws those that are sent before so many events are told, if they are wanted, as long as transitions are drawn.
    fn lost_up_to(&mut self, told: usize, selection: &Selection) -> Result<(), AllocError> {
        let all = self.lost;
        for place in self.passed..all.len() {
            let lost = &all[place];
            if told < lost.place {
                return Ok(());
            }
            self.passed = place + 1;
            if self.drawn < MOST_TRANSITIONS && self.is_wanted(lost, selection) {
                self.lost_signal(lost)?;
            }
        }
        Ok(())
    }

    /// Whether a lost signal is to be seen: its time is wanted, and its receiver has a column, if not all have one.
    fn is_wanted(&self, lost: &Sending<'_>, selection: &Selection) -> bool {
        let is_received = match lost.target {
            Target::Instance(number) => self.plan.column_of(number).is_some(),
            Target::Env | Target::Null | Target::Nobody => false,
        };
        selection.has_time(Ticks::new(lost.at)) && (selection.only.is_empty() || is_received)
    }

    /// Draws one, from the environment to whom it was sent.
    fn lost_signal(&mut self, lost: &Sending<'_>) -> Result<(), AllocError> {
        let at = Ticks::new(lost.at);
        self.begin_time(at)?;
        let column = self.env();
        let row = self.new_row(column, 1);
        let link = if lost.arrives {
            Link::Waits
        } else {
            Link::Gone
        };
        let (tip, remark) = self.tip(row, lost.target, link);
        let values = lost.item.values.as_slice();
        let signal = signal_label(self.alloc, self.system, lost.item.name, values)?;
        let told = self.sent_words("env", signal.as_str(), lost.target, tip, at)?;
        let label = label_with(self.alloc, signal.as_str(), remark, lost.target, tip)?;
        self.chart.arrows.push(Arrow {
            tail: Tail::At(Spot { column, row }),
            tip,
            fate: Fate::Untaken,
            label,
            told,
        })?;
        Ok(())
    }
}
