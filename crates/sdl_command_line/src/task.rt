//! What is to be done, and which words choose it.

use crate::chart::{ChartFile, chart_file};
use crate::commands::{command, named_run};
use crate::coverage::{CoverageFile, coverage_file};
use crate::expectation::{Expectation, expectation_of};
use crate::mistake::Mistake;
use clap::error::ErrorKind;
use clap::{ArgMatches, Error};
use sdl_engine::{Command, Options, View};
use std::alloc::{AllocError, Global};

/// A task: a command with its options, and the text that it is for.
#[derive(Drop)]
pub struct Task {
    pub options: Options,
    /// Whether standard error has what helps a human: why the text is refused, its warnings, and how far a long run is.
    pub explain: bool,
    /// Whether nothing is written of a text that is accepted.
    pub quiet: bool,
    /// Whether failures of instances are told on standard error.
    pub failures: bool,
    /// Whether a failure of an instance counts as one of the program.
    pub strict: bool,
    /// Whether what is suspicious in the specification counts as a mistake.
    pub denies_warnings: bool,
    /// The specification, which a script may follow.
    pub text: InputFile,
    /// A script of its own, which takes the place of the one that follows the specification.
    pub script: Option<InputFile>,
    /// The chart that is made of a run.
    pub chart: Option<ChartFile>,
    /// The file that tells what a run covered.
    pub coverage: Option<CoverageFile>,
    /// The file with what is expected of a run.
    pub expectation: Option<Expectation>,
}

impl Task {
    /// Whether it matters that something in the specification is suspicious: that is told or counts.
    pub fn warns(&self) -> bool {
        self.explain || self.denies_warnings
    }

    /// Whether the specification or its script is read from standard input.
    pub fn reads_standard_input(&self) -> bool {
        self.text.is_standard_input() || self.reads_script_there()
    }

    /// Whether the specification and its script are both read from standard input, which gives only one of them.
    pub fn reads_standard_input_twice(&self) -> bool {
        self.text.is_standard_input() && self.reads_script_there()
    }

    fn reads_script_there(&self) -> bool {
        match &self.script {
            Some(script) => script.is_standard_input(),
            None => false,
        }
    }
}

/// Where a text is read.
#[derive(Drop)]
pub enum InputFile {
    StandardInput,
    /// The file of this name.
    Named(String),
}

impl InputFile {
    /// Whether it is standard input.
    pub fn is_standard_input(&self) -> bool {
        match self {
            InputFile::StandardInput => true,
            InputFile::Named(_) => false,
        }
    }
}

/// The task that the words of the command line choose, the program's name first. Help that was asked for and a mistake
/// are both an `Err`, as the crate `clap` tells them; so is lack of memory.
pub fn chosen(alloc: Global, words: &[String]) -> Result<Task, Error> {
    let command = command(alloc)?;
    let matches = command.try_get_matches_from(words)?;
    match met_task(alloc, &matches) {
        Ok(task) => Ok(task),
        Err(mistake) => Err(told_mistake(alloc, mistake)?),
    }
}

/// A mistake of a run, as `clap` tells it.
fn told_mistake(alloc: Global, mistake: Mistake) -> Result<Error, AllocError> {
    if mistake == Mistake::Memory {
        return Err(AllocError);
    }
    let text = format!(in alloc; "{mistake}")?;
    let mut run = named_run(alloc)?;
    run.error(ErrorKind::ValueValidation, text.as_str())
}

/// The task of the command that is met.
fn met_task(alloc: Global, matches: &ArgMatches<'_>) -> Result<Task, Mistake> {
    if let Some(run) = matches.subcommand_matches("run") {
        let mut task = task_of(alloc, run_options(run), run)?;
        task.failures = !run.get_flag("quiet");
        task.strict = run.get_flag("strict");
        task.chart = chart_file(alloc, run)?;
        task.coverage = coverage_file(alloc, run)?;
        task.expectation = expectation_of(alloc, run)?;
        return Ok(task);
    }
    match matches.subcommand_matches("check") {
        Some(check) => {
            let mut task = task_of(alloc, CHECK, check)?;
            task.quiet = check.get_flag("quiet");
            Ok(task)
        }
        // One of the two has to stand there.
        None => Ok(Task {
            options: CHECK,
            explain: false,
            quiet: false,
            failures: false,
            strict: false,
            denies_warnings: false,
            text: InputFile::StandardInput,
            script: None,
            chart: None,
            coverage: None,
            expectation: None,
        }),
    }
}

/// A check runs nothing, so it has no workers, and no limit of its own.
const CHECK: Options = Options {
    command: Command::Check,
    view: View::Trace,
    workers: None,
    limit: Options::DEFAULT_LIMIT,
};

/// The options of a run, as its command line asks for them.
fn run_options(run: &ArgMatches<'_>) -> Options {
    let limit = run
        .get_one::<u64>("limit")
        .unwrap_or(Options::DEFAULT_LIMIT);
    Options {
        command: Command::Run,
        view: view_of(run),
        workers: workers_of(run),
        limit,
    }
}

/// How a run is told.
fn view_of(run: &ArgMatches<'_>) -> View {
    if run.get_flag("lines") {
        View::Lines
    } else if run.get_flag("json") {
        View::Json
    } else {
        View::Trace
    }
}

/// How many workers are asked for; none for a serial run. A number that fits no `u8` is not in the range of the option.
fn workers_of(run: &ArgMatches<'_>) -> Option<u8> {
    let workers = run.get_one::<u64>("workers")?;
    u8::try_from(workers).ok()
}

/// What a command is to do with the files that are named with it. It explains a refusal, unless it is to be quiet.
fn task_of(alloc: Global, options: Options, named: &ArgMatches<'_>) -> Result<Task, AllocError> {
    let text = match named.get_str("file") {
        Some(name) => input_file(alloc, name)?,
        None => InputFile::StandardInput,
    };
    let script = match named.get_str("script") {
        Some(name) => Some(input_file(alloc, name)?),
        None => None,
    };
    Ok(Task {
        options,
        explain: named.get_flag("explain") || !named.get_flag("quiet"),
        quiet: false,
        failures: false,
        strict: false,
        denies_warnings: named.get_flag("deny-warnings"),
        text,
        script,
        chart: None,
        coverage: None,
        expectation: None,
    })
}

/// Where a text of this name is read: `-` is standard input.
fn input_file(alloc: Global, name: &str) -> Result<InputFile, AllocError> {
    if name == "-" {
        return Ok(InputFile::StandardInput);
    }
    Ok(InputFile::Named(String::from_str(alloc, name)?))
}
