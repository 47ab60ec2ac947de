//! Runs the conformance cases of the folder that it is started in, and tells each whose answer is not the wanted
//! one. With names as arguments it runs those cases alone, and the tables of those names.
//!
//! A case is bytes in a file: a command line, an input, the output and the exit status that are wanted of the
//! program. `file` reads the cases of a file, with the escapes of `escape`; `judge` runs one, and its contract says
//! that a case is as wanted only where the engine's own theorem holds of the wanted output, or the wanted chart may be
//! drawn of a run (`chart`); `tally` counts.
#![tactic(auto)]

mod answer;
mod case;
mod chart;
mod collection;
mod compare;
mod driver;
mod escape;
mod fault;
mod file;
mod judge;
mod lines;
mod quoted;
mod section;
mod table;
mod tally;
mod words;

use std::process::ExitCode;

fn main(rt: HostRuntime) -> ExitCode {
    match driver::run(&rt) {
        Ok(counts) if counts.differ == 0 => ExitCode::SUCCESS,
        Ok(_) => ExitCode::FAILURE,
        Err(fault) => {
            let _ = eprintln!(rt; "conformance: {fault}");
            ExitCode::FAILURE
        }
    }
}
