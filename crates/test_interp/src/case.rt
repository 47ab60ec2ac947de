//! A process in a small system, a script, and the record that its instance is to have over either port.

ghost use Rattle.std.specs.Prelude.{◌≡◌};

use crate::alone::record_alone;
use crate::runtime::{OWN, Runtime};
use crate::shared::record_shared;
use port_model::{Pid, Ticks, Value, Values};
use run_record::{Identity, Record, Report};
use sdl_build::build;
use sdl_parse::parse;
use sdl_report::write_report;
use sdl_script::{Script, read_script};
use sdl_system::{ProcessId, System};
use std::alloc::Global;
use std::process::Abort;
use std::sync::Wait;

/// The signals of the small system.
const SIGNALS: &str =
    "signal a, b, c, v(Integer), pair(Integer, Boolean), at(Time), who(Pid), few(Natural);";

/// The lines of a report before and after the record of the instance.
const HEADING: &str = "instance #1 P parent null";

const END: &str = "end 0 whole\n";

/// A case: the text of process P and of other processes after it; the script of the environment; and the record that
/// the instance is to have, without its heading and the end of the report. `done`: the signals that were sent, and the
/// instances that were made; None: any.
#[derive(Clone, Copy)]
pub struct Case<'a> {
    /// The name of the case: what it shows.
    pub name: &'a str,
    pub process: &'a str,
    pub others: &'a str,
    pub script: &'a str,
    pub wanted: &'a str,
    pub done: Option<&'a str>,
    /// The values of the parameters of P.
    pub values: &'a [Value],
    /// How many signals may be sent.
    pub room: usize,
}

/// A case of nothing.
pub const CASE: Case<'static> = Case {
    name: "",
    process: "",
    others: "",
    script: "",
    wanted: "",
    done: None,
    values: &[],
    room: 100,
};

/// A system to run, with the values of the parameters of its first process, and the script.
#[derive(Drop)]
pub struct Play<'s> {
    pub system: &'s System,
    pub values: Values,
    pub script: Script,
}

/// Who the instance is that is run.
pub fn identity() -> Identity
    ensures process { result.process.0 ≡ 0 }
    ensures pid { result.pid ≡ 1 }
{
    Identity {
        process: ProcessId(0),
        pid: OWN,
        parent: Pid::Null,
    }
}

/// The system of the case.
fn system_of(rt: &impl Abort, alloc: Global, case: &Case<'_>) -> System {
    let (process, others) = (case.process, case.others);
    let text = format!(in alloc;
        "system S; {SIGNALS} process P; {process} endprocess; {others} endsystem;"
    ).expect(rt, "a text");
    let tree = parse(alloc, text.as_bytes()).expect(rt, "a tree");
    build(alloc, &tree).expect(rt, "a system")
}

/// The play of the case in its system.
fn play_of<'s>(rt: &impl Abort, alloc: Global, system: &'s System, case: &Case<'_>) -> Play<'s> {
    Play {
        system,
        values: Values::from_slice(alloc, case.values).expect(rt, "values"),
        script: read_script(alloc, system, case.script.as_bytes()).expect(rt, "a script"),
    }
}

/// The text of a report with this record alone.
fn text_of(rt: &impl Abort, alloc: Global, system: &System, trace: Record) -> Vec<u8> {
    let report = Report {
        records: vec![in alloc; trace].expect(rt, "a list"),
        end: Ticks::new(0),
        whole: true,
    };
    let mut text = Vec::new(alloc);
    write_report(alloc, &report, system, &mut text).expect(rt, "a report");
    text
}

/// Whether a report is the wanted one.
fn is_wanted(case: &Case<'_>, text: &[u8]) -> bool {
    let Some(record) = text.strip_prefix(HEADING.as_bytes()) else {
        return false;
    };
    match record.strip_suffix(END.as_bytes()) {
        Some(record) => record == case.wanted.as_bytes(),
        None => false,
    }
}

/// Compares a record and what was done with what is wanted.
fn compare(
    rt: &impl Abort,
    alloc: Global,
    case: &Case<'_>,
    system: &System,
    trace: Record,
    done: &str,
) {
    let name = case.name;
    let text = text_of(rt, alloc, system, trace);
    assert!(rt; is_wanted(case, text.as_slice()), "{name}: the record");
    assert!(rt; case.done.unwrap_or(done) == done, "{name}: what was done");
}

/// Runs the process over the port of one thread, and compares its record and what was done.
fn check_alone(rt: &impl Abort, alloc: Global, case: &Case<'_>, system: &System) {
    let mut runtime = Runtime::new(rt, alloc, system, case.room);
    let played = play_of(rt, alloc, system, case);
    let trace = record_alone(rt, alloc, played, &mut runtime);
    compare(rt, alloc, case, system, trace, runtime.done.as_str());
}

/// Runs it over a shared port, and compares the same.
fn check_shared<R: Abort + Wait + Copy>(rt: R, alloc: Global, case: &Case<'_>, system: &System) {
    let mut runtime = Runtime::new(&rt, alloc, system, case.room);
    let played = play_of(&rt, alloc, system, case);
    let trace = record_shared(rt, alloc, played, &mut runtime);
    compare(&rt, alloc, case, system, trace, runtime.done.as_str());
}

/// Runs the process over either port, and compares its record and what was done.
pub fn check_case<R: Abort + Wait + Copy>(rt: R, alloc: Global, case: &Case<'_>) {
    let system = system_of(&rt, alloc, case);
    check_alone(&rt, alloc, case, &system);
    check_shared(rt, alloc, case, &system);
}
