//! The words of a command line.

use crate::case::Asked;
use sdl_command_line::Form;
use sdl_engine::{Command, Options, View};
use std::str::SplitWhitespace;

/// Reads the words after the program's name.
pub fn read_words(line: &str) -> Asked {
    let mut words = line.split_whitespace();
    let options = match words.next() {
        Some("check") => check_options(words),
        Some("run") => run_options(words),
        _ => None,
    };
    match options {
        Some(options) => Asked::Command(options),
        None => Asked::Unknown,
    }
}

/// What a check is asked, after which no word stands but `--explain`.
fn check_options(mut words: SplitWhitespace<'_>) -> Option<Options> {
    let mut word = words.next();
    if word == Some("--explain") {
        word = words.next();
    }
    word.is_none().then_some(Options {
        command: Command::Check,
        view: View::Trace,
        workers: None,
        limit: Options::DEFAULT_LIMIT,
    })
}

/// The options of a run by the words after it: its workers, its limit, and how it is told, in this order. None: they are
/// other words.
fn run_options(mut words: SplitWhitespace<'_>) -> Option<Options> {
    let mut options = Options {
        command: Command::Run,
        view: View::Trace,
        workers: None,
        limit: Options::DEFAULT_LIMIT,
    };
    let mut word = words.next();
    if word == Some("--workers") {
        options.workers = Some(workers(words.next()?)?);
        word = words.next();
    }
    if word == Some("--limit") {
        options.limit = limit(words.next()?)?;
        word = words.next();
    } else if let Some(number) = word.and_then(|word| word.strip_prefix("--limit=")) {
        options.limit = limit(number)?;
        word = words.next();
    }
    if let Some(view) = word.and_then(view) {
        options.view = view;
        word = words.next();
    }
    word.is_none().then_some(options)
}

/// How a run is told, by the word that asks for it.
fn view(word: &str) -> Option<View> {
    match word {
        "--lines" => Some(View::Lines),
        "--json" => Some(View::Json),
        _ => None,
    }
}

/// The same asked with as many workers as the word says; none where no run is asked for, or the word says no number of
/// workers that the program takes.
pub fn with_workers(asked: Asked, word: &str) -> Option<Asked> {
    match asked {
        Asked::Command(options) if options.command == Command::Run => {
            Some(Asked::Command(Options {
                workers: Some(workers(word)?),
                ..options
            }))
        }
        _ => None,
    }
}

/// The same asked in this view; none where no run is asked for.
pub fn with_view(asked: Asked, view: View) -> Option<Asked> {
    match asked {
        Asked::Command(options) if options.command == Command::Run => {
            Some(Asked::Command(Options { view, ..options }))
        }
        _ => None,
    }
}

/// The chart of the same run in this form; none where no run without workers is asked for.
pub fn with_chart(asked: Asked, form: Form) -> Option<Asked> {
    match asked {
        Asked::Command(options) if options.command == Command::Run && options.workers.is_none() => {
            Some(Asked::Chart { options, form })
        }
        _ => None,
    }
}

/// A number of workers that the program takes.
fn workers(word: &str) -> Option<u8> {
    let number = word.parse().ok()?;
    (1..=Options::MOST_WORKERS)
        .contains(&number)
        .then_some(number)
}

/// A limit that the program takes.
fn limit(word: &str) -> Option<u64> {
    let number = word.parse().ok()?;
    (1..=Options::MOST_LIMIT)
        .contains(&number)
        .then_some(number)
}
