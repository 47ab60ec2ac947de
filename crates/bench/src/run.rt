//! Whole runs and checks, through the function that `sdlrun` is over, and runs by their parts.

ghost use Rattle.std.specs.Prelude.{All, IfOk};
ghost use Rattle.sdl_script.specs.Script.{SendsFromEnv};

use crate::fault::Fault;
use crate::measure::Done;
use crate::parts::Stopwatch;
use run_record::Report;
use sdl_build::build;
use sdl_engine::{Command, Options, Outcome, Runner, Threaded, View, run_text};
use sdl_parse::parse;
use sdl_script::{Script, read_script};
use sdl_system::System;
use sdl_workers::{run, run_serial};
use std::alloc::Global;
use std::io::{self, Write};
use std::sync::Wait;
use std::thread::Threads;
use std::time::{Clock, Instant};

/// The line between a specification and its script.
const MARK: &str = "%script\n";

/// A writer that counts the bytes that it is given, and keeps none.
#[derive(Drop)]
struct Counter {
    bytes: u64,
}

impl Write for Counter {
    fn write(&mut self, bytes: &[u8]) -> io::Result<usize> {
        self.bytes = self.bytes.wrapping_add(bytes.len() as u64);
        Ok(bytes.len())
    }

    fn flush(&mut self) -> io::Result<()> {
        Ok(())
    }
}

/// Runs a text or checks it, and tells how many bytes were written.
pub fn written<R: Threads + Wait + Copy + Send + Sync>(
    rt: &R,
    alloc: Global,
    text: &[u8],
    command: Command,
    workers: Option<u8>,
) -> Result<u64, Fault> {
    let options = Options {
        command,
        view: View::Trace,
        workers,
        limit: Options::MOST_LIMIT,
    };
    let mut reader = text;
    let mut counter = Counter { bytes: 0 };
    match run_text(
        &Threaded::new(rt),
        alloc,
        &mut reader,
        &mut counter,
        &options,
    ) {
        Ok(Outcome::Whole) => Ok(counter.bytes),
        _ => Err(Fault::Text),
    }
}

/// A system with its script.
#[derive(Drop)]
struct Given {
    system: System,
    script: Script,
}

/// Runs a text, and tells how long its parts took. If the run is bare, its time is that without the text's reading and the
/// report's text, and its count that of the events. Otherwise the count is that of the bytes that are written.
pub fn timed_run<R: Clock + Threads + Wait + Copy + Send + Sync>(
    rt: &R,
    alloc: Global,
    text: &str,
    workers: Option<u8>,
    is_bare: bool,
) -> Result<Done, Fault> {
    let start = Instant::now(rt)?;
    let given = given_by(alloc, text)?;
    let watch = Stopwatch::new(rt)?;
    let report = report_of(rt, alloc, &given, workers, &watch)?;
    let ran = watch.elapsed()?;
    let count = if is_bare {
        events(&report)
    } else {
        bytes(rt, alloc, &given.system, &report, workers)?
    };
    let told = watch.elapsed()?;
    drop(report);
    let released = watch.elapsed()?;
    let took = if is_bare { ran } else { start.elapsed(rt)? };
    Ok(Done {
        count,
        took,
        parts: Some(watch.parts(ran, told, released)),
        again: None,
    })
}

/// The system and the script of a text.
fn given_by(alloc: Global, text: &str) -> Result<Given, Fault>
    ensures { IfOk result (λ given. All (SendsFromEnv given.system) given.script.lines.items) }
{
    let Some((specification, lines)) = text.split_once(MARK) else {
        return Err(Fault::Text);
    };
    let Ok(tree) = parse(alloc, specification.as_bytes()) else {
        return Err(Fault::Text);
    };
    let Ok(system) = build(alloc, &tree) else {
        return Err(Fault::Text);
    };
    let Ok(script) = read_script(alloc, &system, lines.as_bytes()) else {
        return Err(Fault::Text);
    };
    Ok(Given { system, script })
}

/// The report of a run with so many workers, or of a serial one.
fn report_of<R: Clock + Threads + Wait + Copy + Send + Sync>(
    rt: &R,
    alloc: Global,
    given: &Given,
    workers: Option<u8>,
    watch: &Stopwatch<'_, R>,
) -> Result<Report, Fault>
    requires { All (SendsFromEnv given.now.system) given.now.script.lines.items }
{
    let Given { system, script } = given;
    let limit = Options::MOST_LIMIT;
    let report = match workers {
        None => run_serial(alloc, system, script, limit),
        Some(workers) => run(
            rt,
            alloc,
            system,
            script,
            usize::from(workers),
            limit,
            watch,
        ),
    };
    match report {
        Ok(report) => Ok(report),
        Err(_) => Err(Fault::Memory),
    }
}

/// Makes the text of a report, and tells how many bytes it has.
fn bytes<R: Threads + Wait + Copy + Send + Sync>(
    rt: &R,
    alloc: Global,
    system: &System,
    report: &Report,
    workers: Option<u8>,
) -> Result<u64, Fault> {
    let mut counter = Counter { bytes: 0 };
    let runner = Threaded::new(rt);
    match runner.write_report(alloc, workers, report, system, &mut counter) {
        Ok(()) => Ok(counter.bytes),
        Err(_) => Err(Fault::Memory),
    }
}

/// How many events a report has.
fn events(report: &Report) -> u64 {
    let mut count: u64 = 0;
    for record in &report.records {
        count = count.saturating_add(record.len() as u64);
    }
    count
}
