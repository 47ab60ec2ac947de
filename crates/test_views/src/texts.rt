//! The texts of a report in an order of its events, as far as that goes.

ghost use Rattle.std.specs.Prelude.{IfSome};
ghost use Rattle.std.specs.List.{AllByRecursion};
ghost use Rattle.view_timeline.specs.Moves.{IsPart};
ghost use Rattle.view_timeline.specs.Timeline.{AreBegun};

use run_record::Report;
use sdl_build::build;
use sdl_parse::parse;
use sdl_script::read_script;
use sdl_system::System;
use serial_run::run_serial;
use std::alloc::Global;
use std::process::Abort;
use view_text::{write_json, write_lines, write_msc};
use view_timeline::{Timeline, Untold, timeline_in};

static LIMIT: u64 = 1_000_000;

/// The system of a specification.
pub fn system_of<R: Abort>(rt: &R, alloc: Global, text: &str) -> System {
    let tree = parse(alloc, text.as_bytes()).expect(rt, "a tree");
    build(alloc, &tree).expect(rt, "a system")
}

/// The report of the serial run of a system on a script.
pub fn report_of<R: Abort>(rt: &R, alloc: Global, system: &System, script: &str) -> Report {
    let script = read_script(alloc, system, script.as_bytes()).expect(rt, "a script");
    run_serial(alloc, system, &script, LIMIT).expect(rt, "a report")
}

/// A timeline of a report, and the instance that can't go on in it, if one can't.
#[derive(Drop)]
struct Order {
    told: Timeline,
    stuck: Option<u32>,
}

/// A timeline of a report in which the events of these instances come one after the other, as far as it goes, if there
/// is memory for it.
fn order_in(alloc: Global, report: &Report, tellers: &[u32]) -> Option<Order>
    ensures parts { IfSome result (λ order.
        AllByRecursion (IsPart report.now.records.items) order.told.moves.items) }
    ensures begun { IfSome result (λ order. AreBegun report.now.records.items order.told) }
{
    match timeline_in(alloc, report, tellers) {
        Ok(told) => Some(Order { told, stuck: None }),
        Err(Untold::Stuck { told, number }) => Some(Order {
            told,
            stuck: Some(number),
        }),
        Err(Untold::Memory) => None,
    }
}

/// The lines of a report in which the events of these instances come one after the other, if they can be written. The
/// script sends so many signals.
pub fn in_lines(
    alloc: Global,
    system: &System,
    report: &Report,
    tellers: &[u32],
    sent: usize,
) -> Option<Vec<u8>> {
    let order = order_in(alloc, report, tellers)?;
    let (told, stuck) = (&order.told, order.stuck);
    let mut written = Vec::new(alloc);
    let done = write_lines(alloc, report, told, stuck, sent, &[], system, &mut written);
    if done.is_ok() { Some(written) } else { None }
}

/// The JSON of a report in which the events of these instances come one after the other, if it can be written.
pub fn in_json(
    alloc: Global,
    system: &System,
    report: &Report,
    tellers: &[u32],
) -> Option<Vec<u8>> {
    let order = order_in(alloc, report, tellers)?;
    let (told, stuck) = (&order.told, order.stuck);
    let mut written = Vec::new(alloc);
    let done = write_json(alloc, report, told, stuck, &[], system, &mut written);
    if done.is_ok() { Some(written) } else { None }
}

/// The text of Z.120 of a report in which the events of these instances come one after the other, if it can be written.
pub fn in_msc(
    alloc: Global,
    name: &str,
    system: &System,
    report: &Report,
    tellers: &[u32],
) -> Option<Vec<u8>> {
    let order = order_in(alloc, report, tellers)?;
    let (told, stuck) = (&order.told, order.stuck);
    let mut written = Vec::new(alloc);
    let done = write_msc(alloc, name, system, told, stuck, &[], report, &mut written);
    if done.is_ok() { Some(written) } else { None }
}
