//! A run in which a number was spent: a create drew it, and failed for lack of memory.

use crate::relay::RELAY;
use crate::runs::{Run, all, chart_of};
use crate::texts::{in_msc, system_of};
use port_model::{Pid, SignalId, Ticks};
use run_record::{Record, Report};
use sdl_system::{Dest, ProcessId, StateId, System, Target};
use std::alloc::{AllocError, Global};
use std::process::Abort;
use view_timeline::timeline_in;

/// `found`, among the signals of the text.
const FOUND: SignalId = SignalId(2);

/// #1 starts, creates #3, sends and enters its state; then #3 starts.
static TELLERS: [u32; 6] = [1, 1, 1, 1, 3, 3];

/// Sender #1 creates Keeper #3, and sends a signal to it. There is no #2.
fn records(alloc: Global) -> Result<Vec<Record>, AllocError> {
    let mut sender = Record::new(alloc, ProcessId(0), 1, Pid::Null);
    sender.reserve(5, 0)?;
    sender.start(Ticks::new(0));
    sender.create(ProcessId(1), Some(3));
    sender.output(FOUND, Dest::Pid(Pid::Of(3)), &[], Target::Instance(3));
    sender.next_state(StateId(0));
    sender.rest(StateId(0));
    let mut keeper = Record::new(alloc, ProcessId(1), 3, Pid::Of(1));
    keeper.reserve(3, 0)?;
    keeper.start(Ticks::new(0));
    keeper.next_state(StateId(0));
    keeper.rest(StateId(0));
    let mut records = Vec::new(alloc);
    records.push(sender)?;
    records.push(keeper)?;
    Ok(records)
}

/// The run, and the system of its text.
fn spent(rt: &impl Abort, alloc: Global) -> (System, Report) {
    let report = Report {
        records: records(alloc).expect(rt, "records"),
        end: Ticks::new(0),
        whole: true,
    };
    (system_of(rt, alloc, RELAY), report)
}

#[test]
fn names_who_has_the_number_in_text(rt: HostRuntime) {
    let (system, report) = spent(&rt, rt.alloc());
    let text = in_msc(rt.alloc(), "Relay", &system, &report, &TELLERS).expect(&rt, "a text");
    let line = "out found_ to lost Keeper_3 comment 'waits'";
    assert!(rt; str::from_utf8(text.as_slice()).is_ok_and(|text| text.contains(line)));
}

#[test]
fn names_who_has_the_number_in_a_chart(rt: HostRuntime) {
    let alloc = rt.alloc();
    let (system, report) = spent(&rt, alloc);
    let timeline = timeline_in(alloc, &report, &TELLERS)
        .ok()
        .expect(&rt, "a timeline");
    let run = Run {
        system,
        report,
        timeline,
    };
    let chart = chart_of(&rt, alloc, &run, &all(alloc));
    let said = "Sender #1 sends found to Keeper #3 at 0, and it waits there when the run ends";
    let first = chart.arrows.first().expect(&rt, "an arrow");
    assert!(rt; first.told.as_str() == said);
}
