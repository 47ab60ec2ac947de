//! What a test runs.

ghost use Rattle.std.specs.Prelude.{All};
ghost use Rattle.sdl_script.specs.Script.{SendsFromEnv};

use sdl_build::build;
use sdl_parse::parse;
use sdl_script::{Script, read_script};
use sdl_system::System;
use std::alloc::Global;
use std::process::Abort;

/// A system that is to be run, and a script.
#[derive(Drop)]
pub struct Given {
    pub system: System,
    pub script: Script,
}

/// The system of a specification, and a script for it.
pub fn make_given(rt: &impl Abort, alloc: Global, specification: &str, script: &str) -> Given
    ensures { All (SendsFromEnv result.system) result.script.lines.items }
{
    let tree = parse(alloc, specification.as_bytes()).expect(rt, "a tree");
    let system = build(alloc, &tree).expect(rt, "a system");
    let script = read_script(alloc, &system, script.as_bytes()).expect(rt, "a script");
    Given { system, script }
}
