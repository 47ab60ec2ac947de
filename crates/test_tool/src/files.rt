//! Files that are written of a run: which are refused, and what a fault leaves of the one that was there.

use sdl_command_line::{OutputFile, Overwriting, Task, chosen, overwritten_by};
use std::alloc::Global;
use std::io::Write;
use std::os::unix::fs::symlink;
use std::process::Abort;
use std::rt::{Env, Files};
use std::{env, fs, process};

/// Makes a folder for the files of a test. The number is that of the process.
fn folder<R: Files + Env + AllocGlobal + Abort>(rt: &R, test: &str, number: u32) -> String {
    let place = env::temp_dir(rt).expect(rt, "a place");
    let place = place.as_str();
    let name = format!(in rt.alloc(); "{place}/sdlrun-{test}-{number}").expect(rt, "memory");
    fs::create_dir(rt, name.as_str()).expect(rt, "a folder");
    name
}

/// A text in which the folder stands for `@`.
fn within<R: AllocGlobal + Abort>(rt: &R, folder: &str, text: &str) -> String {
    text.replace(rt.alloc(), "@", folder).expect(rt, "memory")
}

/// What a command line asks for, if it has no mistake.
fn asked(rt: &impl Abort, alloc: Global, line: &str) -> Option<Task> {
    let mut words = Vec::new(alloc);
    for word in line.split(" ") {
        let word = String::from_str(alloc, word).expect(rt, "memory");
        words.push(word).expect(rt, "memory");
    }
    chosen(alloc, words.as_slice()).ok()
}

/// Options, and what they would overwrite, with the option that would.
static OPTIONS: [(&str, Option<Overwriting>); 11] = [
    ("--chart @/a.svg", SPECIFICATION),
    ("--chart @/hard.svg", SPECIFICATION),
    ("--chart @/link.svg", SPECIFICATION),
    ("--chart @/./a.svg --coverage @/s.txt", SPECIFICATION),
    ("--chart @/new.svg --coverage @/s.txt", SCRIPT),
    ("--chart @/link.svg --expect @/link.svg", SPECIFICATION),
    ("--expect @/other.svg --chart @/./other.svg", EXPECTED),
    ("--expect @/s.txt", COMPARED),
    ("--expect @/s.txt --bless", BLESSED),
    ("--coverage @/other.txt", None),
    ("--coverage @/new.txt", None),
];

const SPECIFICATION: Option<Overwriting> = Some(Overwriting {
    option: "--chart",
    deed: "overwrite",
    text: "the specification",
});

const SCRIPT: Option<Overwriting> = Some(Overwriting {
    option: "--coverage",
    deed: "overwrite",
    text: "the script",
});

const EXPECTED: Option<Overwriting> = Some(Overwriting {
    option: "--chart",
    deed: "overwrite",
    text: "what is expected",
});

const COMPARED: Option<Overwriting> = Some(Overwriting {
    option: "--expect",
    deed: "compare with",
    text: "the script",
});

const BLESSED: Option<Overwriting> = Some(Overwriting {
    option: "--bless",
    deed: "overwrite",
    text: "the script",
});

#[test]
fn overwrites_no_input(rt: HostRuntime) {
    let folder = folder(&rt, "overwriting", process::id(rt.process()));
    let folder = folder.as_str();
    let text = within(&rt, folder, "@/a.svg");
    for name in ["@/a.svg", "@/s.txt", "@/other.txt", "@/other.svg"] {
        fs::write(&rt, within(&rt, folder, name), "text").expect(&rt, "a file");
    }
    fs::hard_link(
        &rt,
        text.as_str(),
        within(&rt, folder, "@/hard.svg").as_str(),
    )
    .expect(&rt, "a link");
    symlink(
        &rt,
        text.as_str(),
        within(&rt, folder, "@/link.svg").as_str(),
    )
    .expect(&rt, "a link");
    for (options, found) in &OPTIONS {
        let line = format!(in rt.alloc(); "sdlrun run {options} --script @/s.txt @/a.svg").expect(
            &rt, "memory",
        );
        let line = within(&rt, folder, line.as_str());
        let task = asked(&rt, rt.alloc(), line.as_str()).expect(&rt, "a task");
        assert!(rt; overwritten_by(&rt, &task) == *found, "{options}");
    }
    fs::remove_dir_all(&rt, folder).expect(&rt, "no folder");
}

#[test]
fn replaces_a_file_when_it_is_whole(rt: HostRuntime) {
    let folder = folder(&rt, "whole", process::id(rt.process()));
    let name = within(&rt, folder.as_str(), "@/a.svg");
    fs::write(&rt, name.as_str(), "old").expect(&rt, "a file");
    write_in(&rt, name.as_str(), false);
    assert!(rt; has(&rt, name.as_str(), "old"));
    write_in(&rt, name.as_str(), true);
    assert!(rt; has(&rt, name.as_str(), "new"));
    // Only an empty folder can be removed so, and nothing else is left in it.
    fs::remove_file(&rt, name).expect(&rt, "a file");
    fs::remove_dir(&rt, folder).expect(&rt, "a folder");
}

/// Whether the file of this name has this text.
fn has<R: Files + AllocGlobal + Abort>(rt: &R, name: &str, text: &str) -> bool {
    fs::read(rt, name).expect(rt, "a file").as_slice() == text.as_bytes()
}

/// Writes a text into the file of this name, and ends the file if it is to be whole.
fn write_in<R: Files + AllocGlobal + Abort>(rt: &R, name: &str, is_whole: bool) {
    let mut file = OutputFile::create(rt, name).expect(rt, "a file");
    file.write_all(b"new").expect(rt, "a text");
    if is_whole {
        file.finish().expect(rt, "a file");
    }
}

/// Command lines with the times that are drawn, and whether there are such times.
static TIMES: [(&str, bool); 2] = [
    ("sdlrun run --chart a.svg --from 2 --until 2", true),
    ("sdlrun run --chart a.svg --from 2 --until 1", false),
];

#[test]
fn draws_no_times_that_are_none(rt: HostRuntime) {
    for (line, are_some) in &TIMES {
        assert!(rt;
            asked(&rt, rt.alloc(), line).is_some() == *are_some,
            "{line}"
        );
    }
}
