//! The way from the files to the last line.

ghost use Rattle.std.specs.Prelude.{◌≡◌, IfOk, length};
ghost use Rattle.conformance.specs.Tally.{AddsUp, IsTally};

use crate::case::Case;
use crate::collection::read_cases;
use crate::fault::Fault;
use crate::judge::{Verdict, judge};
use crate::tally::Counts;
use std::env;
use std::rt::{Env, Files};
use std::sync::Wait;
use std::thread::Threads;

/// Runs the cases of the current folder, all of them or those that the command line names, and prints the last line.
pub fn run<R: Files + Env + Print + AllocGlobal + Threads + Wait + Copy + Send + Sync>(
    rt: &R,
) -> Result<Counts, Fault> {
    let cases = asked_cases(rt)?;
    if cases.is_empty() {
        return Err(Fault::NoCase);
    }
    let counts = run_cases(rt, cases.as_slice())?;
    println!(rt; "{counts}")?;
    Ok(counts)
}

/// The cases of the current folder that the command line names, or all of them.
fn asked_cases<R: Files + Env + AllocGlobal>(rt: &R) -> Result<Vec<Case>, Fault> {
    let names: Vec<String> = env::args(rt)?.skip(1).collect(rt.alloc())?;
    select(read_cases(rt)?, names.as_slice())
}

/// The cases that are named, or all where no name is given. A name that names nothing is a fault.
fn select(mut cases: Vec<Case>, names: &[String]) -> Result<Vec<Case>, Fault> {
    if names.is_empty() {
        return Ok(cases);
    }
    know_names(cases.as_slice(), names)?;
    cases.retain(|case| is_one_of(case, names));
    Ok(cases)
}

/// Sees that each name names a case or a table.
fn know_names(cases: &[Case], names: &[String]) -> Result<(), Fault> {
    for name in names {
        if !cases.iter().any(|case| is_named(case, name.as_str())) {
            return Err(Fault::Unknown(name.clone()?));
        }
    }
    Ok(())
}

/// Whether one of the names is the case's, or that of its table.
fn is_one_of(case: &Case, names: &[String]) -> bool {
    names.iter().any(|name| is_named(case, name.as_str()))
}

/// Whether this is the case's name, or that of its table.
fn is_named(case: &Case, name: &str) -> bool {
    match case.name.as_str().split_once('/') {
        Some((table, _)) if table == name => true,
        _ => case.name.as_str() == name,
    }
}

/// Judges each case, and prints each that differs.
fn run_cases<R: Print + AllocGlobal + Threads + Wait + Copy + Send + Sync>(
    rt: &R,
    cases: &[Case],
) -> Result<Counts, Fault>
    ensures number { IfOk result (λ counts. counts.cases ≡ length cases.now) }
    ensures adds_up { IfOk result AddsUp }
    ensures tally { IfOk result (IsTally cases.now) }
{
    let mut counts = Counts::new();
    for case in cases {
        let verdict = judge(rt, rt.alloc(), case)?;
        tell(rt, case, &verdict)?;
        counts.count(&verdict);
    }
    Ok(counts)
}

/// Prints in what a case differs, if it does.
fn tell<R: Print>(rt: &R, case: &Case, verdict: &Verdict) -> Result<(), Fault> {
    if let Verdict::Differs(difference) = verdict {
        let name = case.name.as_str();
        println!(rt; "{name}: {difference}")?;
    }
    Ok(())
}
