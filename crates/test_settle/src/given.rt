//! What a test runs, and the text of its report.

ghost use Rattle.std.specs.Prelude.{All};
ghost use Rattle.sdl_script.specs.Script.{SendsFromEnv};
ghost use Rattle.threads_shared.specs.Environment.{IsOfEnv};

use run_record::Report;
use sdl_build::build;
use sdl_parse::parse;
use sdl_report::write_report;
use sdl_script::{Script, read_script};
use sdl_system::System;
use sdl_workers::{Gate, Watch, run, run_serial};
use std::alloc::Global;
use std::process::Abort;
use std::sync::Wait;
use std::thread::Threads;

/// A system that is to be run, and a script.
#[derive(Drop)]
pub struct Given {
    pub system: System,
    pub script: Script,
}

/// The system of a specification, and a script for it.
#[tactic(auto, using(crate::proofs::OfEnv::all_of_env))]
pub fn make_given(rt: &impl Abort, alloc: Global, specification: &str, script: &str) -> Given
    ensures of_env { All IsOfEnv result.script.lines.items }
    ensures sends { All (SendsFromEnv result.system) result.script.lines.items }
{
    let tree = parse(alloc, specification.as_bytes()).expect(rt, "a tree");
    let system = build(alloc, &tree).expect(rt, "a system");
    let script = read_script(alloc, &system, script.as_bytes()).expect(rt, "a script");
    Given { system, script }
}

/// The text of the run with so many workers, with this limit of transitions.
pub fn text_with<R: Threads + Wait + Abort + Copy + Send + Sync, G: Gate + Watch + Sync>(
    rt: &R,
    alloc: Global,
    given: &Given,
    workers: usize,
    limit: u64,
    gate: &G,
) -> String
    requires { All (SendsFromEnv given.now.system) given.now.script.lines.items }
{
    let Given { system, script } = given;
    let report = run(rt, alloc, system, script, workers, limit, gate).expect(rt, "a report");
    text_of(rt, alloc, &report, system)
}

/// The text of the run on one thread, with this limit of transitions.
pub fn serial_text(rt: &impl Abort, alloc: Global, given: &Given, limit: u64) -> String {
    let Given { system, script } = given;
    let report = run_serial(alloc, system, script, limit).expect(rt, "a serial report");
    text_of(rt, alloc, &report, system)
}

/// The text of a report.
pub fn text_of(rt: &impl Abort, alloc: Global, report: &Report, system: &System) -> String {
    let mut text = Vec::new(alloc);
    write_report(alloc, report, system, &mut text).expect(rt, "a text");
    String::from_utf8(text).expect(rt, "text in UTF-8")
}

/// How many lines of a report begin so.
pub fn lines_with(report: &str, beginning: &str) -> usize {
    report
        .lines()
        .filter(|line| line.starts_with(beginning))
        .count()
}
