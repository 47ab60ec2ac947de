//! The commands and options that there are, and their help.

use clap::builder::ValueParser;
use clap::{Arg, ArgAction, Command};
use sdl_engine::Options;
use std::alloc::{AllocError, Global};

/// The program's version, and the logic that it is proved in. The gate compares the latter with the toolchain's own.
const VERSION: &str = "0.1.0 (rattle logic dac8208d650f15bf)";

/// The text after the help of the program.
const HELP: &str =
    "Both commands read a file, or standard input: a specification in SDL/PR, and after a line `%script` a script.

Examples:
  sdlrun run examples/counter.sdl
  sdlrun run < examples/counter.sdl
  sdlrun run --coverage counter.txt examples/counter.sdl

Exit status:
  0  whole: the text was checked, or the run came to its end
  1  the run was cut at its limit
  2  the text is refused, by one line on standard output; standard error says more
  3  the run is refused, or a file can't be opened or written, or reading, writing or memory failed
  4  the command line has a mistake
  6  an instance failed, in a run with --strict
  7  there is a warning of the specification, with --deny-warnings
  8  a run differs from what --expect names
  141  standard output is a pipe that nobody reads any more

docs/LANGUAGE.md has the language, the script, the trace and all refusals.";

/// The text after the help of `check`.
const CHECK_HELP: &str =
    "It makes all checks of the specification, and reads the script for it, as a run does, and then runs nothing.

Examples:
  echo 'SYSTEM s; SIGNAL a; endsystem;' | sdlrun check
  sdlrun check --quiet examples/counter.sdl";

/// The text after the help of `run`.
const RUN_HELP: &str =
    "The specification ends at the first line that is `%script`; what follows is the script, a line for each
signal that the environment sends: its time in ticks, its name and its values. A time alone moves time.

  %script
  # at time 0, a signal, and another with a value at time 3
  0 inc
  3 add(7) to #2
  10

Without --workers the run is serial, and its trace is always the same. With workers it may differ from run to run.

Examples:
  sdlrun run --limit 100 < examples/counter.sdl
  sdlrun run --lines --chart inres.svg examples/inres.sdl
  sdlrun run --coverage inres.txt examples/inres.sdl
  sdlrun run --expect examples/counter.trace examples/counter.sdl";

/// The program with its commands.
pub fn command<'a>(alloc: Global) -> Result<Command<'a>, AllocError> {
    let command = Command::new(alloc, "sdlrun")
        .about("Reads SDL specifications, runs them and writes their exact traces")
        .version(VERSION)
        .subcommand_required(true)
        .after_help(HELP);
    command.subcommand(check(alloc)?)?.subcommand(run(alloc)?)
}

/// The command that checks a text.
fn check<'a>(alloc: Global) -> Result<Command<'a>, AllocError> {
    let check = Command::new(alloc, "check")
        .about("Checks a specification with its script, and writes its canonical text")
        .after_help(CHECK_HELP);
    check
        .arg(file(alloc))?
        .arg(script(alloc))?
        .arg(quiet(
            alloc,
            "Writes nothing of an accepted text, and of another one its line alone; the exit status tells",
        ))?
        .arg(deny_warnings(alloc))?
        .arg(explain(alloc))
}

/// The command that runs a text, as it tells of its mistakes itself.
pub fn named_run<'a>(alloc: Global) -> Result<Command<'a>, AllocError> {
    run(alloc)?.bin_name("sdlrun run")
}

/// The command that runs a text.
fn run<'a>(alloc: Global) -> Result<Command<'a>, AllocError> {
    let run = Command::new(alloc, "run")
        .about(
            "Runs a specification on its script, and writes the trace of each instance, a chart, or what the run covered",
        )
        .after_help(RUN_HELP);
    run.arg(file(alloc))?
        .arg(script(alloc))?
        .arg(workers(alloc))?
        .arg(limit(alloc))?
        .arg(lines(alloc)?)?
        .arg(json(alloc))?
        .arg(chart(alloc))?
        .arg(only(alloc)?)?
        .arg(time(alloc, "from", "Draws nothing before time T")?)?
        .arg(time(alloc, "until", "Draws nothing after time T")?)?
        .arg(coverage(alloc))?
        .arg(expect(alloc))?
        .arg(outputs(alloc)?)?
        .arg(bless(alloc)?)?
        .arg(strict(alloc))?
        .arg(quiet(
            alloc,
            "Explains no refusal, whose line on standard output says it alone, and shows no warning and no failure",
        ))?
        .arg(deny_warnings(alloc))?
        .arg(explain(alloc))
}

/// The file of the specification.
fn file<'a>(alloc: Global) -> Arg<'a> {
    Arg::new(alloc, "file").value_name("FILE").help(
        "The specification, with its script after it; standard input if not given, or if it is `-`",
    )
}

/// The file of the script.
fn script<'a>(alloc: Global) -> Arg<'a> {
    Arg::new(alloc, "script")
        .long("script")
        .value_name("FILE")
        .help(
            "A script that takes the place of the one after the specification; `-` is standard input",
        )
        .action(ArgAction::Set)
}

/// How many threads run the instances.
fn workers<'a>(alloc: Global) -> Arg<'a> {
    Arg::new(alloc, "workers")
        .long("workers")
        .value_name("N")
        .help("Runs the instances on N worker threads, 1 to 16; serially if not given")
        .action(ArgAction::Set)
        .value_parser(ValueParser::unsigned(1, u64::from(Options::MOST_WORKERS)))
}

/// At how many transitions a run is cut.
fn limit<'a>(alloc: Global) -> Arg<'a> {
    Arg::new(alloc, "limit")
        .long("limit")
        .value_name("N")
        .help("Cuts the run after N transitions, 1 to 1000000000; 1000000 if not given")
        .action(ArgAction::Set)
        .value_parser(ValueParser::unsigned(1, Options::MOST_LIMIT))
}

/// Whether a run is told in its order.
fn lines<'a>(alloc: Global) -> Result<Arg<'a>, AllocError> {
    Arg::new(alloc, "lines")
        .long("lines")
        .help("Writes the trace in the order of the run, and what waits or is gone")
        .action(ArgAction::SetTrue)
        .conflicts_with("json")
}

/// Whether a run is told in its order, as JSON.
fn json<'a>(alloc: Global) -> Arg<'a> {
    Arg::new(alloc, "json")
        .long("json")
        .help("Writes the same as JSON, a line for each transition")
        .action(ArgAction::SetTrue)
}

/// The file of a chart.
fn chart<'a>(alloc: Global) -> Arg<'a> {
    Arg::new(alloc, "chart")
        .long("chart")
        .value_name("NAME")
        .help(
            "Draws the run into the file NAME as a message sequence chart: .svg or .html, or .mpr as text of Z.120",
        )
        .action(ArgAction::Set)
}

/// The instances that a picture shows.
fn only<'a>(alloc: Global) -> Result<Arg<'a>, AllocError> {
    Arg::new(alloc, "only")
        .long("only")
        .value_name("INSTANCES")
        .help("Draws these instances alone, such as `Initiator,#5`: those of a process, and #5")
        .action(ArgAction::Append)
        .value_delimiter(',')
        .requires_arg("chart")
}

/// The first or the last time that a picture shows.
fn time<'a>(alloc: Global, name: &'a str, help: &'a str) -> Result<Arg<'a>, AllocError> {
    Arg::new(alloc, name)
        .long(name)
        .value_name("T")
        .help(help)
        .action(ArgAction::Set)
        .value_parser(ValueParser::unsigned(0, u64::MAX))
        .requires_arg("chart")
}

/// The file that tells what a run covered.
fn coverage<'a>(alloc: Global) -> Arg<'a> {
    Arg::new(alloc, "coverage")
        .long("coverage")
        .value_name("NAME")
        .help(
            "Writes what the run covered into the file NAME: .txt for people, or .info as LCOV reads it",
        )
        .action(ArgAction::Set)
}

/// The file with what is expected of a run.
fn expect<'a>(alloc: Global) -> Arg<'a> {
    Arg::new(alloc, "expect")
        .long("expect")
        .value_name("NAME")
        .help(
            "Compares what is written with the file NAME, tells the first difference, and ends with status 8",
        )
        .action(ArgAction::Set)
}

/// Whether the signals to the environment alone are expected.
fn outputs<'a>(alloc: Global) -> Result<Arg<'a>, AllocError> {
    Arg::new(alloc, "outputs")
        .long("outputs")
        .help(
            "Compares the signals to the environment alone, a line each, such as `3 val(1) from #1`",
        )
        .action(ArgAction::SetTrue)
        .requires_arg("expect")?
        .conflicts_with("lines")?
        .conflicts_with("json")
}

/// Whether the file with what is expected is written.
fn bless<'a>(alloc: Global) -> Result<Arg<'a>, AllocError> {
    Arg::new(alloc, "bless")
        .long("bless")
        .help("Writes the file of --expect anew, and compares nothing")
        .action(ArgAction::SetTrue)
        .requires_arg("expect")
}

/// Whether no refusal is explained, no warning is shown, and nothing is written of a text that a check accepts.
fn quiet<'a>(alloc: Global, help: &'a str) -> Arg<'a> {
    Arg::new(alloc, "quiet")
        .short('q')
        .long("quiet")
        .help(help)
        .action(ArgAction::SetTrue)
}

/// Whether a failure of an instance counts as one of the program.
fn strict<'a>(alloc: Global) -> Arg<'a> {
    Arg::new(alloc, "strict")
        .long("strict")
        .help("Ends with status 6 if an instance failed")
        .action(ArgAction::SetTrue)
}

/// Whether what is suspicious in the specification counts.
fn deny_warnings<'a>(alloc: Global) -> Arg<'a> {
    Arg::new(alloc, "deny-warnings")
        .long("deny-warnings")
        .help("Ends with status 7 if there is a warning of the specification")
        .action(ArgAction::SetTrue)
}

/// Whether a refusal is explained after all, and warnings are shown: they are where it is not quiet.
fn explain<'a>(alloc: Global) -> Arg<'a> {
    Arg::new(alloc, "explain")
        .long("explain")
        .help(
            "Explains a refusal of the text on standard error, and shows warnings, with --quiet, too",
        )
        .action(ArgAction::SetTrue)
}
