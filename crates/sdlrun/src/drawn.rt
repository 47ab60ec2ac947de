//! The file of a chart.

use crate::failure::Failure;
use crate::paper::Paper;
use sdl_command_line::{ChartFile, draw, nobody};
use sdl_engine::Run;
use std::alloc::{AllocError, Global};
use view_chart::Wanted;

/// Draws a run in the file that is named. It answers the instance that can't go on, where the order of the run isn't
/// known to the end. Nothing is drawn if the run has none of some instances that are asked for.
pub fn draw_file(rt: &HostRuntime, run: &Run, chart: &ChartFile) -> Result<Option<u32>, Failure> {
    if let Some(wanted) = nobody(run, &chart.selection) {
        return Err(Failure::Nobody(word_of(rt.alloc(), wanted)?));
    }
    let mut paper = Paper::create(rt, chart.name.as_str())?;
    match draw(rt.alloc(), run, chart.form, &chart.selection, &mut paper) {
        Ok(stuck) => {
            paper.finish()?;
            Ok(stuck)
        }
        Err(fault) => Err(paper.failure(fault)),
    }
}

/// The word of the command line that asks for these instances.
fn word_of(alloc: Global, wanted: &Wanted) -> Result<String, AllocError> {
    match wanted {
        Wanted::Process(name) => name.clone(),
        Wanted::Instance(number) => format!(in alloc; "#{number}"),
    }
}
