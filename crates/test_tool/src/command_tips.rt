//! What is said of a word of a command line that is no command and no option.

use crate::command_line::words;
use sdl_command_line::{chosen, mistake_text};
use std::alloc::Global;
use std::process::Abort;

/// Command lines with a word that is no command and no option there, and how the text of the mistake begins.
static TIPS: [(&str, &str); 12] = [
    (
        "sdlrun a.sdl",
        "error: unrecognized subcommand 'a.sdl'\n\n  tip: the commands are 'run' and 'check': 'sdlrun run FILE' runs a \
         specification on its script\n\nUsage: ",
    ),
    (
        "sdlrun fmt a.sdl",
        "error: unrecognized subcommand 'fmt'\n\n  tip: 'sdlrun check FILE' checks a specification and writes it in its \
         canonical layout\n\nUsage: ",
    ),
    (
        "sdlrun -v",
        "error: unexpected argument '-v' found\n\n  tip: '-V' writes the version; the commands are 'run' and \
         'check'\n\nUsage: ",
    ),
    (
        "sdlrun --lines run a.sdl",
        "error: unexpected argument '--lines' found\n\n  tip: a command comes first, 'run' or 'check', and its options \
         follow: 'sdlrun run --lines FILE'\n\nUsage: ",
    ),
    (
        "sdlrun check --strict a.sdl",
        "error: unexpected argument '--strict' found\n\n  tip: 'sdlrun run' has this option; a check runs \
         nothing\n\nUsage: ",
    ),
    (
        "sdlrun run -w 4 a.sdl",
        "error: unexpected argument '-w' found\n\n  tip: '--workers N' runs the instances on N threads\n\nUsage: ",
    ),
    (
        "sdlrun run -o b a.sdl",
        "error: unexpected argument '-o' found\n\n  tip: standard output has the trace, and '> NAME' after the command \
         line keeps it\n\nUsage: ",
    ),
    (
        "sdlrun run --limit -5 a.sdl",
        "error: unexpected argument '-5' found\n\n  tip: no option takes a negative number\n\nUsage: ",
    ),
    (
        "sdlrun run --svg a.sdl",
        "error: unexpected argument '--svg' found\n\n  tip: '--chart NAME.svg' draws the run; so do the endings '.html' \
         and '.mpr'\n\nUsage: ",
    ),
    (
        "sdlrun check -s b a.sdl",
        "error: unexpected argument '-s' found\n\n  tip: '--script NAME' reads the script from a file of its \
         own\n\nUsage: ",
    ),
    (
        "sdlrun run --worker 4 a.sdl",
        "error: unexpected argument '--worker' found\n\n  tip: a similar argument exists: '--workers'\n\nUsage: ",
    ),
    (
        "sdlrun run -x a.sdl",
        "error: unexpected argument '-x' found\n\nUsage: ",
    ),
];

#[test]
fn tells_what_to_write_instead(rt: HostRuntime) {
    for (line, beginning) in &TIPS {
        let words = words(&rt, rt.alloc(), line);
        let text = mistake_in(&rt, rt.alloc(), words.as_slice());
        assert!(rt; text.as_str().starts_with(*beginning), "{line}");
    }
}

/// The text of the mistake in these words; nothing, if there is none.
fn mistake_in(rt: &impl Abort, alloc: Global, words: &[String]) -> String {
    match chosen(alloc, words) {
        Ok(_) => String::new(alloc),
        Err(error) => mistake_text(alloc, &error, words).expect(rt, "memory"),
    }
}
