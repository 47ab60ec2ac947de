//! What the command line asks for.

use crate::misuse::mistake_text;
use crate::overwriting::{Overwriting, overwritten_by};
use crate::task::{Task, chosen};
use clap::Error;
use clap::error::ErrorKind;
use sdl_engine::TextFault;
use std::rt::{Env, Files};
use std::{env, io};

/// The request of a command line.
#[derive(Drop)]
pub enum Request {
    Read(Task),
    /// It asked for help or the version, which was printed.
    Answered,
    /// It has a mistake, which was told.
    Misused,
    /// Nobody reads the answer.
    PipeClosed,
    /// It could not be read.
    Fault(TextFault),
}

/// Reads the command line, and answers help and mistakes at once.
pub fn read_command_line<R: Env + AllocGlobal + Print + Eprint + Files>(rt: &R) -> Request {
    let Ok(arguments) = env::args(rt) else {
        return Request::Fault(TextFault::Memory);
    };
    let words: Vec<String> = match arguments.collect(rt.alloc()) {
        Ok(words) => words,
        Err(_) => return Request::Fault(TextFault::Memory),
    };
    match chosen(rt.alloc(), words.as_slice()) {
        Ok(task) => request_of(rt, task),
        Err(error) => told(rt, &error, words.as_slice()),
    }
}

/// The request of a task. To read both texts from standard input is a mistake, which is told, and so is to write into a
/// file that is read.
fn request_of<R: Eprint + Files>(rt: &R, task: Task) -> Request {
    if task.reads_standard_input_twice() {
        let _ = eprintln!(rt;
            "error: a specification and its script can't both be read from standard input"
        );
        return Request::Misused;
    }
    if let Some(Overwriting { option, deed, text }) = overwritten_by(rt, &task) {
        let _ = eprintln!(rt; "error: {option} would {deed} the file of {text}");
        return Request::Misused;
    }
    Request::Read(task)
}

/// Prints what clap has to say of these words: help, or a mistake.
fn told<R: AllocGlobal + Print + Eprint>(rt: &R, error: &Error, words: &[String]) -> Request {
    if error.kind() == ErrorKind::OutOfMemory {
        return Request::Fault(TextFault::Memory);
    }
    if error.use_stderr() {
        return match mistake_text(rt.alloc(), error, words) {
            Ok(text) => misused(rt, text.as_str()),
            Err(_) => Request::Fault(TextFault::Memory),
        };
    }
    match error.print(rt) {
        Ok(()) => Request::Answered,
        Err(fault) if fault.kind() == io::ErrorKind::BrokenPipe => Request::PipeClosed,
        Err(_) => Request::Fault(TextFault::Write),
    }
}

/// Prints what is wrong.
fn misused<R: Eprint>(rt: &R, text: &str) -> Request {
    match eprint!(rt; "{text}") {
        Ok(()) => Request::Misused,
        Err(fault) if fault.kind() == io::ErrorKind::BrokenPipe => Request::PipeClosed,
        Err(_) => Request::Fault(TextFault::Write),
    }
}
