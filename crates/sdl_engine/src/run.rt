//! A run, as those need it who tell of it.

ghost use Rattle.std.specs.Prelude.{◌≡◌};
ghost use Rattle.std.specs.String.{string_bytes};
ghost use Rattle.sdl_engine.specs.Views.{has_signal, signals_of};

use run_record::Report;
use sdl_script::{Script, ScriptLine};
use sdl_system::System;
use sdl_tree::Tree;
use view_run::OrderLog;

/// A specification, its system, the script, and what the run of them did.
#[derive(Drop)]
pub struct Run {
    pub tree: Tree,
    pub system: System,
    pub script: Script,
    pub report: Report,
    /// What was kept so that its order can be told, if that was asked for and there was memory for it.
    pub log: Option<OrderLog>,
}

impl Run {
    /// The name of the system.
    pub fn name(&self) -> &str
        ensures { result.now ≡ string_bytes self.now.tree.name.text }
    {
        self.tree.name.text.as_str()
    }
}

/// How many signals the environment sends: a line of a script may have none.
pub fn signals_of(script: &Script) -> usize
    ensures { result ≡ signals_of script.now.lines.items }
{
    script.lines.iter().filter(|line| has_signal(line)).count()
}

fn has_signal(line: &ScriptLine) -> bool
    ensures { result ≡ has_signal line.now }
{
    line.signal.is_some()
}
