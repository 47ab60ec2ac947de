//! Measures the port and whole runs: what calls cost with much in a port, and what runs and checks of great texts
//! cost. `bench WHAT N` does one thing with N of something, and prints how much was done; with `--time` it prints how
//! long that took, too, and what the parts of a run took. `bench --help` lists what there is.
//!
//! `docs/PERFORMANCE.md` has the method and the figures. The gate runs all of it with a small number. Calls of the shared
//! port that are refused for lack of memory are made again, once (`retry`); `tools/refuse-growth --rows` refuses each
//! allocation of such calls in turn, as no proved test can.
#![tactic(auto)]

mod alone;
mod call;
mod command_line;
mod dense;
mod fault;
mod measure;
mod parts;
mod retry;
mod rows;
mod run;
mod shared;
mod signals;
mod things;

use command_line::{Request, read_command_line};
use fault::Fault;
use measure::{Manner, Measure};
use std::process::ExitCode;
use std::sync::Wait;
use std::thread::Threads;
use std::time::Clock;

fn main(rt: HostRuntime) -> ExitCode {
    match read_command_line(&rt) {
        Ok(request) => ExitCode::from(status_of(&rt, &request)),
        Err(status) => ExitCode::from(status),
    }
}

/// Does what is asked for, up to what fails, and gives the exit status.
fn status_of<R: AllocGlobal + Print + Eprint + Clock + Threads + Wait + Copy + Send + Sync>(
    rt: &R,
    request: &Request,
) -> u8 {
    for measure in &request.measures {
        if let Err(fault) = answered(rt, *measure, request.manner) {
            let _ = eprintln!(rt; "bench: {measure}: {fault}");
            return fault.status();
        }
    }
    0
}

/// Prints a text, or does what is to be measured and tells how much was done.
fn answered<R: AllocGlobal + Print + Clock + Threads + Wait + Copy + Send + Sync>(
    rt: &R,
    measure: Measure,
    manner: Manner,
) -> Result<(), Fault> {
    if manner.is_printed {
        let text = measure.text(rt.alloc())?;
        print!(rt; "{text}")?;
        return Ok(());
    }
    let done = measure.done(rt, rt.alloc(), manner)?;
    let count = done.count;
    print!(rt; "{measure}: {count}")?;
    if let Some(call) = done.again {
        print!(rt; ", {call} made again")?;
    }
    if manner.is_timed {
        print!(rt; ", {} us", done.took.as_micros())?;
        if let Some(parts) = done.parts {
            print!(rt; " ({parts})")?;
        }
    }
    println!(rt; "")?;
    Ok(())
}
