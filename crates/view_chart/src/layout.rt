//! From the moves of a timeline to the rows of a chart.

use crate::chart::Chart;
use crate::passage::MoveWalk;
use crate::plan::Plan;
use crate::rows::Layout;
use crate::selection::Selection;
use run_record::Report;
use sdl_system::System;
use std::alloc::{AllocError, Global};
use view_text::Sending;
use view_timeline::Timeline;

/// What a chart is made of: a report of a run, its system, and its timeline. `stuck` is the instance at which the
/// timeline ends before the run does. `lost` are the signals of the script that nobody took.
#[derive(Clone, Copy)]
pub struct Subject<'r> {
    pub system: &'r System,
    pub report: &'r Report,
    pub timeline: &'r Timeline,
    pub stuck: Option<u32>,
    pub lost: &'r [Sending<'r>],
}

/// Lays out a chart.
///
/// An output, a lost signal of the script, a timer, a create, a stop and a new state have a row each, in the order of
/// the timeline. The take of a signal gets the row of its output if the receiver has nothing there or below, and no
/// time has passed: then the arrow is level. Else it gets a new row, and the arrow slopes.
pub fn lay_out(
    alloc: Global,
    subject: Subject<'_>,
    selection: &Selection,
) -> Result<Chart, AllocError> {
    let plan = Plan::new(alloc, &subject, selection)?;
    let mut layout = Layout::new(alloc, &subject, plan)?;
    let mut walk = MoveWalk::new(alloc, subject.report, subject.timeline)?;
    for one in &subject.timeline.moves {
        let Some(passage) = walk.passage(one) else {
            break;
        };
        layout.lost_before(&passage, selection)?;
        layout.passage(&passage, selection)?;
    }
    layout.lost_at_end(selection)?;
    layout.into_chart(subject.stuck)
}
