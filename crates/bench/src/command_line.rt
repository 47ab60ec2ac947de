//! The command line: what is measured, and with how much.

use crate::measure::{Manner, Measure, all, named};
use clap::builder::ValueParser;
use clap::error::ErrorKind;
use clap::{Arg, ArgAction, ArgMatches, Command, Error};
use std::alloc::{AllocError, Global};
use std::env;
use std::rt::Env;

/// The text after the help.
const HELP: &str = "Calls of a port:
  puts N       one sender puts N signals into a shared port, and its owner takes them
  four N       four senders put N signals together, each in a thread of its own, and a fifth thread takes them
  saved N      10 N takes after N saved signals
  urgent N     N takes of a priority input among N ordinary signals
  sets N       10 N sets and resets of a timer beside N waiting signals
  timers N     N timers are set, set again, asked for, expire and are taken
  finish N     N timers expire, and the port ends

Rows of calls, each of which must answer as it should:
  two-senders N        two senders put N signals each in two threads; the owner gathers both and takes
  stop-and-workers N   N times: signals are put before a stop and after it, and all are left
  save-in-port N       N times: saved signals stay for a state that takes them

Whole runs of texts that are made for it:
  ring N H     N instances hand a token on H times, up their numbers or --down; N is 999 at most
  save N H     an instance that saves N signals takes H others
  flood N      N signals that one instance sends to another's port
  busy N H     N instances make H transitions each; N is 1000 at most
  fuses N H    an instance sets and resets a timer H times while N others wait
  priority N   N ordinary signals and after them N of a priority input, which are taken first
  turns N      N signals that are saved, with one of a priority input after each
  resets N H   an instance sets and resets a timer H times while the signals of N wait
  tokens N H   999 instances in a ring hand N tokens on, each H times; N is 999 at most
  crowd N H    N instances send H signals each into one port; N is 999 at most

Checks of texts of one shape, in N bytes:
  states N, tasks N, processes N, decisions N

  all N        each of them, with N for all numbers and 10000 N bytes

A run is serial without --workers. With --bare its time is that of the run alone: the text is read before, and no report
is written. With --time the parts of a run follow: its steps until all threads are joined, its settling, the text of
its report, and the release of all that it had.";

/// What the command line asks for.
#[derive(Drop)]
pub struct Request {
    pub measures: Vec<Measure>,
    pub manner: Manner,
}

/// Reads the command line. If there is nothing to do, gives the exit status: help was printed, or a mistake was told.
pub fn read_command_line<R: Env + AllocGlobal + Print + Eprint>(rt: &R) -> Result<Request, u8> {
    let Ok(arguments) = env::args(rt) else {
        return Err(3);
    };
    let words: Vec<String> = match arguments.collect(rt.alloc()) {
        Ok(words) => words,
        Err(_) => return Err(3),
    };
    match asked(rt.alloc(), words.as_slice()) {
        Ok(Some(request)) => Ok(request),
        Ok(None) => {
            let _ = eprintln!(rt;
                "bench: there is nothing of that name with such numbers; --help has what there is"
            );
            Err(2)
        }
        Err(error) => Err(told(rt, &error)),
    }
}

/// Prints what clap has to say, and gives the exit status.
fn told<R: Print + Eprint>(rt: &R, error: &Error) -> u8 {
    if error.kind() == ErrorKind::OutOfMemory {
        return 3;
    }
    if error.print(rt).is_ok() && !error.use_stderr() {
        0
    } else {
        2
    }
}

/// Reads the request from the words of the command line, the program's name first; none if there is no such thing.
fn asked(alloc: Global, words: &[String]) -> Result<Option<Request>, Error> {
    let matches = command(alloc)?.try_get_matches_from(words)?;
    let measures = measures(alloc, &matches)?;
    let manner = Manner {
        is_printed: matches.get_flag("print"),
        is_timed: matches.get_flag("time"),
        is_bare: matches.get_flag("bare"),
        workers: workers_of(&matches),
    };
    Ok((!measures.is_empty()).then_some(Request { measures, manner }))
}

/// What the arguments name; empty if there is no such thing.
fn measures(alloc: Global, matches: &ArgMatches<'_>) -> Result<Vec<Measure>, AllocError> {
    let (Some(name), Some(first), Some(second)) = (
        matches.get_str("WHAT"),
        matches.get_one::<u64>("N"),
        matches.get_one::<u64>("H"),
    ) else {
        return Ok(Vec::new(alloc));
    };
    if name == "all" {
        all(alloc, first)
    } else {
        named(alloc, name, matches.get_flag("down"), first, second)
    }
}

/// How many workers are asked for. A number that fits no `u8` is not in the range of the option.
fn workers_of(matches: &ArgMatches<'_>) -> Option<u8> {
    let workers = matches.get_one::<u64>("workers")?;
    u8::try_from(workers).ok()
}

/// The program with its arguments and options.
fn command<'a>(alloc: Global) -> Result<Command<'a>, AllocError> {
    let what = Arg::new(alloc, "WHAT")
        .required(true)
        .help("What is done")
        .value_parser(ValueParser::string());
    let command = Command::new(alloc, "bench")
        .about("Does one thing with much of something, and prints how much was done")
        .after_help(HELP)
        .arg(what)?
        .arg(number(alloc, "N", "With how much").required(true))?
        .arg(number(alloc, "H", "How often").default_value("1000"))?;
    with_options(alloc, command)
}

/// Adds the options: in which way.
fn with_options<'a>(alloc: Global, command: Command<'a>) -> Result<Command<'a>, AllocError> {
    let workers = Arg::new(alloc, "workers")
        .long("workers")
        .value_name("N")
        .help("How many worker threads a run has")
        .value_parser(ValueParser::unsigned(1, 16));
    command
        .arg(flag(alloc, "down", "Hands the token of a ring down the numbers"))?
        .arg(flag(alloc, "print", "Prints the text, and does nothing with it"))?
        .arg(flag(
            alloc,
            "time",
            "Prints how long it took, too, a run in its parts",
        ))?
        .arg(flag(
            alloc,
            "bare",
            "Runs a text without reading it and without its report",
        ))?
        .arg(workers)
}

/// A number.
fn number<'a>(alloc: Global, name: &'a str, help: &'a str) -> Arg<'a> {
    Arg::new(alloc, name)
        .help(help)
        .value_parser(ValueParser::unsigned(1, 1_000_000_000))
}

/// An option without a value.
fn flag<'a>(alloc: Global, name: &'a str, help: &'a str) -> Arg<'a> {
    Arg::new(alloc, name)
        .long(name)
        .help(help)
        .action(ArgAction::SetTrue)
}
