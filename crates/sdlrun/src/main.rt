//! `sdlrun` reads a specification in SDL/PR with a script of timed signals, from files or standard input. `run` runs
//! its process instances and writes the exact trace of each, or all in one order, draws a chart of it, tells what it
//! covered, and compares it with what is expected; `check` writes its canonical text. Either writes one line instead
//! that names a refusal and its place.
//!
//! `sdl_engine`'s `run_and_note` is the whole tool over any readers and writers; `main` has the command line read by
//! `sdl_command_line`, has `run_and_note` called on the text that is named there, and maps its answer to an exit status.
#![tactic(auto)]

mod answer;
mod covered;
mod drawn;
mod expected;
mod failure;
mod message;
mod opened;
mod paper;
mod progress;
mod reading;
mod warned;

use failure::Failure;
use reading::{Told, tell};
use sdl_command_line::{Request, read_command_line};
use sdl_engine::{Outcome, TextFault};
use std::io;
use std::process::ExitCode;

/// The exit status of a mistake of the command line.
const MISUSED: u8 = 4;

/// The exit status that shells show of a program that the signal SIGPIPE has ended, as it ends others whose pipe is
/// closed. This program gets a fault of writing in its place.
const PIPE_CLOSED: u8 = 141;

fn main(rt: HostRuntime) -> ExitCode {
    let task = match read_command_line(&rt) {
        Request::Read(task) => task,
        Request::Answered => return ExitCode::SUCCESS,
        Request::Misused => return ExitCode::from(MISUSED),
        Request::PipeClosed => return ExitCode::from(PIPE_CLOSED),
        Request::Fault(fault) => return ended(&rt, fault),
    };
    match tell(&rt, &rt, &task) {
        Ok(told) => status_of(told),
        Err(Failure::Unopened(name, error)) => { no_file(&rt, name.as_str(), "opened", &error) }
        Err(Failure::Unwritten(name, error)) => { no_file(&rt, name.as_str(), "written", &error) }
        Err(Failure::Nobody(word)) => no_instance(&rt, word.as_str()),
        Err(Failure::PipeClosed) => ExitCode::from(PIPE_CLOSED),
        Err(Failure::Text(fault)) => ended(&rt, fault),
    }
}

/// The exit status that tells what came of a text.
fn status_of(told: Told) -> ExitCode {
    if told.stuck {
        return ExitCode::from(3);
    }
    if told.differs {
        return ExitCode::from(8);
    }
    if told.warned {
        return ExitCode::from(7);
    }
    if told.failed {
        return ExitCode::from(6);
    }
    match told.outcome {
        Outcome::Whole => ExitCode::SUCCESS,
        Outcome::Cut => ExitCode::from(1),
        Outcome::TextRefused => ExitCode::from(2),
        Outcome::RunRefused => ExitCode::from(3),
    }
}

/// Says on standard error which fault ended the program.
fn ended(rt: &impl Eprint, fault: TextFault) -> ExitCode {
    let _ = eprintln!(rt; "sdlrun: {fault}");
    ExitCode::from(3)
}

/// Says on standard error which file can't be opened or written, and why.
fn no_file(rt: &impl Eprint, name: &str, what: &str, error: &io::Error) -> ExitCode {
    let _ = eprintln!(rt; "sdlrun: {name} can't be {what}: {error}");
    ExitCode::from(3)
}

/// Says on standard error that a word of the command line chooses no instance of the run.
fn no_instance(rt: &impl Eprint, word: &str) -> ExitCode {
    let _ = eprintln!(rt; "error: --only {word} chooses no instance of this run");
    ExitCode::from(MISUSED)
}
