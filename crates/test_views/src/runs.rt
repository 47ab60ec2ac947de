//! Specifications, as they run.

use run_record::Report;
use sdl_build::build;
use sdl_parse::parse;
use sdl_script::read_script;
use sdl_system::System;
use serial_run::{Nobody, SerialRun, run_serial_noted};
use std::alloc::Global;
use std::process::Abort;
use view_chart::{Chart, Selection, Subject, lay_out};
use view_timeline::{Timeline, timeline_in};

/// A run, with all that is told of it.
#[derive(Drop)]
pub struct Run {
    pub system: System,
    pub report: Report,
    pub timeline: Timeline,
}

/// The run of a specification with a script, of so many transitions at most.
pub fn run_of<R: Abort>(rt: &R, alloc: Global, text: &str, script: &str, limit: u64) -> Run {
    let tree = parse(alloc, text.as_bytes()).expect(rt, "a tree");
    let system = build(alloc, &tree).expect(rt, "a system");
    let script = read_script(alloc, &system, script.as_bytes()).expect(rt, "a script");
    let ran = run_serial_noted(alloc, &system, &script, limit, Nobody, true).expect(rt, "a run");
    let SerialRun { report, order } = ran;
    let tellers = order.into_list().expect(rt, "whose events were told");
    let timeline = timeline_in(alloc, &report, &tellers)
        .ok()
        .expect(rt, "a timeline");
    Run {
        system,
        report,
        timeline,
    }
}

/// The chart of this selection of a run.
pub fn chart_of<R: Abort>(rt: &R, alloc: Global, run: &Run, selection: &Selection) -> Chart {
    let subject = Subject {
        system: &run.system,
        report: &run.report,
        timeline: &run.timeline,
        stuck: None,
        lost: &[],
    };
    lay_out(alloc, subject, selection).expect(rt, "a chart")
}

/// All of a run.
pub fn all(alloc: Global) -> Selection {
    Selection {
        only: Vec::new(alloc),
        from: None,
        until: None,
    }
}
