//! What to write in place of a command or an option that there isn't.

/// Gives the tip about a word that is no command.
pub fn command_tip(word: &str) -> &'static str {
    match word {
        "version" => "'sdlrun --version' writes the version; the commands are 'run' and 'check'",
        "fmt" | "format" | "pretty" | "print" => {
            "'sdlrun check FILE' checks a specification and writes it in its canonical layout"
        }
        "test" => "'sdlrun run --expect NAME FILE' compares a run with what is expected of it",
        _ =>
            "the commands are 'run' and 'check': 'sdlrun run FILE' runs a specification on its script",
    }
}

/// Gives the tip about an option that a command doesn't have. None if nothing of another name does the same.
pub fn option_tip(command: &str, option: &str) -> Option<&'static str> {
    match command {
        "run" => run_tip(option),
        "check" if is_of_run(option) => Some("'sdlrun run' has this option; a check runs nothing"),
        "check" => text_tip(option),
        _ => Some(first_tip(option)),
    }
}

/// Gives the tip about an option in front of the command.
fn first_tip(option: &str) -> &'static str {
    match option {
        "-v" => "'-V' writes the version; the commands are 'run' and 'check'",
        _ => {
            "a command comes first, 'run' or 'check', and its options follow: 'sdlrun run --lines FILE'"
        }
    }
}

/// Gives the tip about an option of another program that runs something.
fn run_tip(option: &str) -> Option<&'static str> {
    match option {
        "-w" | "-j" | "-t" | "--jobs" | "--threads" | "--parallel" => {
            Some("'--workers N' runs the instances on N threads")
        }
        "-l" | "-n" | "-m" | "--steps" | "--max" | "--max-steps" | "--bound" | "--depth" => {
            Some("'--limit N' cuts the run after N transitions")
        }
        "-o" | "--output" | "--out" | "--trace" | "--log" | "--file" => {
            Some("standard output has the trace, and '> NAME' after the command line keeps it")
        }
        "-v" | "-d" | "--verbose" | "--debug" => {
            Some("'--lines' writes the trace in the order of the run")
        }
        "--seed" | "--random" | "-r" => {
            Some(
                "a run without '--workers' is always the same, and nothing in it happens by chance",
            )
        }
        "-c" | "--svg" | "--html" | "--msc" | "--mpr" | "--graph" | "--draw" | "--picture" => {
            Some("'--chart NAME.svg' draws the run; so do the endings '.html' and '.mpr'")
        }
        "--cov" | "--lcov" => Some(
            "'--coverage NAME.txt' writes what the run covered, or 'NAME.info'",
        ),
        "--time" | "--end" | "--duration" => {
            Some("a run ends at the time of the last line of its script, such as '100'")
        }
        _ => text_tip(option),
    }
}

/// Gives the tip about an option of another program that reads a text.
fn text_tip(option: &str) -> Option<&'static str> {
    match option {
        "-s" | "-i" | "-f" | "--input" | "--inputs" | "--events" => {
            Some("'--script NAME' reads the script from a file of its own")
        }
        "--silent" => Some("'--quiet' leaves explanations and warnings out"),
        "-W" | "--werror" | "--Werror" | "-Werror" | "--warnings" => {
            Some("'--deny-warnings' ends with status 7 if there is a warning")
        }
        "-V" | "--version" => Some("'sdlrun --version' writes the version"),
        "-1" | "-2" | "-3" | "-4" | "-5" | "-6" | "-7" | "-8" | "-9" | "-0" => {
            Some("no option takes a negative number")
        }
        _ => None,
    }
}

/// Whether a run alone has an option.
fn is_of_run(option: &str) -> bool {
    OF_RUNS.iter().any(|other| *other == option)
}

static OF_RUNS: [&str; 13] = [
    "--workers",
    "--limit",
    "--lines",
    "--json",
    "--chart",
    "--only",
    "--from",
    "--until",
    "--coverage",
    "--expect",
    "--outputs",
    "--bless",
    "--strict",
];
