//! Charts of runs.

ghost use Rattle.std.specs.Prelude.{IfOk};
ghost use Rattle.conformance.specs.Judgement.{IsChart, IsChartOf};

use crate::answer::{noted_answer, silent_notes};
use crate::case::Answer;
use sdl_command_line::{Form, draw};
use sdl_engine::{Options, Run};
use std::alloc::{AllocError, Global};
use std::sync::Wait;
use std::thread::Threads;
use view_chart::Selection;

/// Runs the engine on an input, and draws the run in this form. Its status is that of the run.
pub fn chart_of<T: Threads + Wait + Copy + Send + Sync>(
    rt: &T,
    alloc: Global,
    input: &[u8],
    options: &Options,
    form: Form,
) -> Result<Answer, AllocError>
    ensures { IfOk result (λ chart. IsChart input.now options.now form chart.output.items chart.status) }
{
    let mut notes = silent_notes(alloc);
    notes.keeps = true;
    notes.keeps_order = true;
    let told = noted_answer(rt, alloc, input, &mut notes, options);
    let output = drawn(alloc, &notes.run, form)?;
    Ok(Answer {
        status: told.status,
        output,
    })
}

/// The whole chart of a run that is kept; nothing, if none is. Nothing but memory can be refused to a `Vec`.
fn drawn(alloc: Global, kept: &Option<Run>, form: Form) -> Result<Vec<u8>, AllocError>
    ensures { IfOk result (λ chart. IsChartOf form kept.now chart.items) }
{
    let mut chart = Vec::new(alloc);
    let Some(run) = kept else {
        return Ok(chart);
    };
    let all = Selection {
        only: Vec::new(alloc),
        from: None,
        until: None,
    };
    match draw(alloc, run, form, &all, &mut chart) {
        Ok(_) => Ok(chart),
        Err(_) => Err(AllocError),
    }
}
