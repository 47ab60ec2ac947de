//! Which words of a command line choose what.

use clap::Error;
use clap::error::ErrorKind;
use port_model::Ticks;
use sdl_command_line::{Form, InputFile, Part, Task, chosen};
use sdl_engine::{Command, Options, View};
use std::alloc::Global;
use std::process::Abort;
use view_chart::Selection;

/// The request of a command line: the command, the workers and the limit, and the files of the specification and the
/// script.
type Asked<'a> = (Command, Option<u8>, u64, Option<&'a str>, Option<&'a str>);

/// Command lines with what they ask for; none for a mistake, and for help.
static LINES: [(&str, Option<Asked<'static>>); 31] = [
    (
        "sdlrun check",
        Some((Command::Check, None, 1_000_000, None, None)),
    ),
    (
        "sdlrun run",
        Some((Command::Run, None, 1_000_000, None, None)),
    ),
    (
        "sdlrun run --limit 3",
        Some((Command::Run, None, 3, None, None)),
    ),
    (
        "sdlrun run --limit 1000000000",
        Some((Command::Run, None, 1_000_000_000, None, None)),
    ),
    (
        "sdlrun check a.sdl",
        Some((Command::Check, None, 1_000_000, Some("a.sdl"), None)),
    ),
    (
        "sdlrun check --script b a",
        Some((Command::Check, None, 1_000_000, Some("a"), Some("b"))),
    ),
    (
        "sdlrun run a --limit 4 --script=b",
        Some((Command::Run, None, 4, Some("a"), Some("b"))),
    ),
    (
        "sdlrun run --script b",
        Some((Command::Run, None, 1_000_000, None, Some("b"))),
    ),
    (
        "sdlrun run --workers 1",
        Some((Command::Run, Some(1), 1_000_000, None, None)),
    ),
    (
        "sdlrun run --workers=16 --limit 5 a",
        Some((Command::Run, Some(16), 5, Some("a"), None)),
    ),
    (
        "sdlrun run -",
        Some((Command::Run, None, 1_000_000, None, None)),
    ),
    (
        "sdlrun check --quiet --script - a",
        Some((Command::Check, None, 1_000_000, Some("a"), Some("-"))),
    ),
    (
        "sdlrun run --quiet a",
        Some((Command::Run, None, 1_000_000, Some("a"), None)),
    ),
    ("sdlrun check --strict a", None),
    ("sdlrun run --workers 0", None),
    ("sdlrun run --workers 17", None),
    ("sdlrun run --workers 257", None),
    ("sdlrun run --workers two", None),
    ("sdlrun run --workers", None),
    ("sdlrun run --workers 2 --workers 3", None),
    ("sdlrun check --workers 2", None),
    ("sdlrun run --limit 0", None),
    ("sdlrun run --limit 1000000001", None),
    ("sdlrun check --limit 3", None),
    ("sdlrun run --limit 3 --limit 4", None),
    ("sdlrun run a b", None),
    ("sdlrun run --script", None),
    ("sdlrun", None),
    ("sdlrun file", None),
    ("sdlrun --help", None),
    ("sdlrun --version", None),
];

#[test]
fn command_lines(rt: HostRuntime) {
    for (line, asked) in &LINES {
        let told = told(&rt, rt.alloc(), line);
        assert!(rt; asked_by(&told) == *asked, "{line}");
    }
}

/// Command lines, and how a run is told; none for a mistake.
static VIEWS: [(&str, Option<View>); 7] = [
    ("sdlrun run a", Some(View::Trace)),
    ("sdlrun run --lines a", Some(View::Lines)),
    ("sdlrun run --workers 2 --json", Some(View::Json)),
    ("sdlrun run --lines --json a", None),
    ("sdlrun run --lines --lines a", None),
    ("sdlrun check --lines a", None),
    ("sdlrun check --json a", None),
];

#[test]
fn tells_runs_as_asked(rt: HostRuntime) {
    for (line, view) in &VIEWS {
        let told = told(&rt, rt.alloc(), line);
        assert!(rt; view_in(&told) == *view, "{line}");
    }
}

fn view_in(told: &Result<Task, Error>) -> Option<View> {
    match told {
        Ok(task) => Some(task.options.view),
        Err(_) => None,
    }
}

/// A chart: its file and its form, how many words choose its instances, and its first and its last time.
type Drawn<'a> = (&'a str, Form, usize, Option<u64>, Option<u64>);

/// Command lines, and the chart that is drawn.
static CHARTS: [(&str, Option<Drawn<'static>>); 6] = [
    ("sdlrun run a.svg", None),
    (
        "sdlrun run --chart a.svg",
        Some(("a.svg", Form::Svg, 0, None, None)),
    ),
    (
        "sdlrun run --json --chart=b/a.svg.html b",
        Some(("b/a.svg.html", Form::Html, 0, None, None)),
    ),
    (
        "sdlrun run b --chart a.mpr",
        Some(("a.mpr", Form::Msc, 0, None, None)),
    ),
    (
        "sdlrun run --only P,#2 --from 3 --chart a.svg",
        Some(("a.svg", Form::Svg, 2, Some(3), None)),
    ),
    (
        "sdlrun run --chart a.html --until 5 --only P --only Q,R",
        Some(("a.html", Form::Html, 3, None, Some(5))),
    ),
];

#[test]
fn draws_what_is_asked(rt: HostRuntime) {
    for (line, drawn) in &CHARTS {
        let told = told(&rt, rt.alloc(), line);
        assert!(rt; told.is_ok(), "{line}");
        assert!(rt; drawn_by(&told) == *drawn, "{line}");
    }
}

fn drawn_by(told: &Result<Task, Error>) -> Option<Drawn<'_>> {
    let Ok(
        Task {
            chart: Some(chart),
            ..
        },
    ) = told
    else {
        return None;
    };
    let Selection { only, from, until } = &chart.selection;
    Some((
        chart.name.as_str(),
        chart.form,
        only.len(),
        ticks(from),
        ticks(until),
    ))
}

fn ticks(time: &Option<Ticks>) -> Option<u64> {
    match time {
        Some(time) => Some(time.get()),
        None => None,
    }
}

/// Mistakes in the options of a chart.
static MISDRAWN: [&str; 16] = [
    "sdlrun run --chart",
    "sdlrun run --chart a.png",
    "sdlrun run --chart a",
    "sdlrun run --chart -",
    "sdlrun run --chart a.svg --chart b.svg",
    "sdlrun run --only P",
    "sdlrun run --from 1",
    "sdlrun run --until 1",
    "sdlrun run --chart a.svg --from x",
    "sdlrun run --chart a.svg --until -1",
    "sdlrun run --chart a.svg --only #",
    "sdlrun run --chart a.svg --only #4294967296",
    "sdlrun run --chart a.svg --only P,,Q",
    "sdlrun run --chart a.mpr --only P",
    "sdlrun run --chart a.mpr --from 0",
    "sdlrun check --chart a.svg",
];

#[test]
fn refuses_charts_that_cannot_be(rt: HostRuntime) {
    for line in &MISDRAWN {
        let told = told(&rt, rt.alloc(), line);
        assert!(rt; told.is_err(), "{line}");
    }
}

/// A file that tells what a run covered, and its form.
type Covered<'a> = (&'a str, view_coverage::Form);

/// Command lines, and the file that tells what the run covered.
static COVERAGE: [(&str, Option<Covered<'static>>); 5] = [
    ("sdlrun run a.txt", None),
    (
        "sdlrun run --coverage a.txt",
        Some(("a.txt", view_coverage::Form::Plain)),
    ),
    (
        "sdlrun run --coverage=b/a.txt.info b",
        Some(("b/a.txt.info", view_coverage::Form::Lcov)),
    ),
    (
        "sdlrun run b --coverage .info --workers 2",
        Some((".info", view_coverage::Form::Lcov)),
    ),
    (
        "sdlrun run --json --chart a.svg --coverage a.txt --strict a",
        Some(("a.txt", view_coverage::Form::Plain)),
    ),
];

#[test]
fn covers_what_is_asked(rt: HostRuntime) {
    for (line, covered) in &COVERAGE {
        let told = told(&rt, rt.alloc(), line);
        assert!(rt; told.is_ok(), "{line}");
        assert!(rt; covered_by(&told) == *covered, "{line}");
    }
}

fn covered_by(told: &Result<Task, Error>) -> Option<Covered<'_>> {
    match told {
        Ok(
            Task {
                coverage: Some(coverage),
                ..
            },
        ) => Some((coverage.name.as_str(), coverage.form)),
        _ => None,
    }
}

/// Mistakes in the option of a file that tells what a run covered.
static MISCOVERED: [&str; 9] = [
    "sdlrun run --coverage",
    "sdlrun run --coverage a",
    "sdlrun run --coverage -",
    "sdlrun run --coverage a.svg",
    "sdlrun run --coverage a.TXT",
    "sdlrun run --coverage a.txt.",
    "sdlrun run --chart a.info",
    "sdlrun run --coverage a.txt --coverage a.info",
    "sdlrun check --coverage a.txt",
];

#[test]
fn refuses_coverage_that_cannot_be(rt: HostRuntime) {
    for line in &MISCOVERED {
        let told = told(&rt, rt.alloc(), line);
        assert!(rt; told.is_err(), "{line}");
    }
}

/// Command lines, and what is expected: the file, whether of the outputs alone, and whether it is written.
static EXPECTED: [(&str, Option<(&str, Part, bool)>); 6] = [
    ("sdlrun run a", None),
    ("sdlrun check a", None),
    ("sdlrun run --expect b a", Some(("b", Part::Whole, false))),
    (
        "sdlrun run --json --workers 2 --expect=b",
        Some(("b", Part::Whole, false)),
    ),
    (
        "sdlrun run --bless --expect b --lines",
        Some(("b", Part::Whole, true)),
    ),
    (
        "sdlrun run --outputs a --expect b",
        Some(("b", Part::Outputs, false)),
    ),
];

#[test]
fn expects_what_is_asked(rt: HostRuntime) {
    for (line, expected) in &EXPECTED {
        let told = told(&rt, rt.alloc(), line);
        assert!(rt; told.is_ok(), "{line}");
        assert!(rt; expected_by(&told) == *expected, "{line}");
    }
}

fn expected_by(told: &Result<Task, Error>) -> Option<(&str, Part, bool)> {
    match told {
        Ok(
            Task {
                expectation: Some(expectation),
                ..
            },
        ) => Some((
            expectation.name.as_str(),
            expectation.part,
            expectation.blesses,
        )),
        _ => None,
    }
}

/// Mistakes in the options of what is expected.
static MISEXPECTED: [&str; 7] = [
    "sdlrun run --expect",
    "sdlrun run --outputs a",
    "sdlrun run --bless a",
    "sdlrun run --expect b --outputs --lines a",
    "sdlrun run --expect b --json --outputs a",
    "sdlrun run --expect b --expect c a",
    "sdlrun check --expect b a",
];

#[test]
fn refuses_expectations_that_cannot_be(rt: HostRuntime) {
    for line in &MISEXPECTED {
        let told = told(&rt, rt.alloc(), line);
        assert!(rt; told.is_err(), "{line}");
    }
}

/// Command lines, and whether a refusal is explained.
static EXPLAINED: [(&str, bool); 6] = [
    ("sdlrun check", true),
    ("sdlrun check -q", false),
    ("sdlrun check --quiet --explain", true),
    ("sdlrun run a", true),
    ("sdlrun run -q a", false),
    ("sdlrun run --quiet a", false),
];

#[test]
fn explains_unless_quiet(rt: HostRuntime) {
    for (line, explain) in &EXPLAINED {
        let told = told(&rt, rt.alloc(), line);
        assert!(rt; is_explained(&told) == *explain, "{line}");
    }
}

/// Command lines, and whether warnings are looked for and whether they count.
static WARNED: [(&str, bool, bool); 4] = [
    ("sdlrun check", true, false),
    ("sdlrun run -q a", false, false),
    ("sdlrun run --deny-warnings a", true, true),
    ("sdlrun check --quiet --deny-warnings", true, true),
];

#[test]
fn warns_as_asked(rt: HostRuntime) {
    for (line, warns, denies) in &WARNED {
        let told = told(&rt, rt.alloc(), line);
        assert!(rt; warned_by(&told) == Some((*warns, *denies)), "{line}");
    }
}

fn warned_by(told: &Result<Task, Error>) -> Option<(bool, bool)> {
    match told {
        Ok(task) => Some((task.warns(), task.denies_warnings)),
        Err(_) => None,
    }
}

/// Command lines, and whether they have both texts read from standard input.
static BOTH: [(&str, bool); 5] = [
    ("sdlrun run", false),
    ("sdlrun run --script -", true),
    ("sdlrun run --script - -", true),
    ("sdlrun run --script - a", false),
    ("sdlrun run --script a -", false),
];

#[test]
fn tells_who_reads_standard_input_twice(rt: HostRuntime) {
    for (line, both) in &BOTH {
        let told = told(&rt, rt.alloc(), line);
        assert!(rt; reads_twice(&told) == *both, "{line}");
    }
}

fn reads_twice(told: &Result<Task, Error>) -> bool {
    match told {
        Ok(task) => task.reads_standard_input_twice(),
        Err(_) => false,
    }
}

/// Command lines that aren't mistakes, though nothing is read for them.
static ANSWERED: [(&str, ErrorKind); 4] = [
    ("sdlrun --help", ErrorKind::DisplayHelp),
    ("sdlrun help run", ErrorKind::DisplayHelp),
    ("sdlrun check --help", ErrorKind::DisplayHelp),
    ("sdlrun --version", ErrorKind::DisplayVersion),
];

#[test]
fn answered_lines(rt: HostRuntime) {
    for (line, kind) in &ANSWERED {
        let told = told(&rt, rt.alloc(), line);
        assert!(rt; kind_of(&told) == Some(*kind), "{line}");
    }
}

/// Reads the words of a line: the task that they choose, or the help or the mistake, by which nothing is to be done.
fn told(rt: &impl Abort, alloc: Global, line: &str) -> Result<Task, Error> {
    let words = words(rt, alloc, line);
    chosen(alloc, words.as_slice())
}

/// The words of a line.
pub fn words(rt: &impl Abort, alloc: Global, line: &str) -> Vec<String> {
    let mut words = Vec::new(alloc);
    for word in line.split(" ") {
        let word = String::from_str(alloc, word).expect(rt, "memory");
        words.push(word).expect(rt, "memory");
    }
    words
}

/// The request that is told; none by a mistake, and by help.
fn asked_by(told: &Result<Task, Error>) -> Option<Asked<'_>> {
    let Ok(task) = told else {
        return None;
    };
    let Options {
        command,
        workers,
        limit,
        ..
    } = task.options;
    Some((command, workers, limit, named(&task.text), script_in(task)))
}

/// The name of a file; none of standard input.
fn named(file: &InputFile) -> Option<&str> {
    match file {
        InputFile::StandardInput => None,
        InputFile::Named(name) => Some(name.as_str()),
    }
}

/// The name of the script of its own; `-` for standard input, and none if there is no such script.
fn script_in(task: &Task) -> Option<&str> {
    let Some(script) = &task.script else {
        return None;
    };
    Some(named(script).unwrap_or("-"))
}

fn is_explained(told: &Result<Task, Error>) -> bool {
    match told {
        Ok(task) => task.explain,
        Err(_) => false,
    }
}

/// As what a line is told by which nothing is to be done; none for one by which something is.
fn kind_of(told: &Result<Task, Error>) -> Option<ErrorKind> {
    match told {
        Ok(_) => None,
        Err(error) => Some(error.kind()),
    }
}
