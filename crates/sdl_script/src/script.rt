//! Scripts of timed signals from the environment.

ghost use Rattle.std.specs.Prelude.{◌≡◌, ◌<◌, IfErr, IfOk, IfSome, OnOk};
ghost use Rattle.std.specs.Bool.{OnFalse, OnTrue};
ghost use Rattle.std.specs.List.{list_all};
ghost use Rattle.sdl_script.specs.Part.{is_space};
ghost use Rattle.sdl_script.specs.Script.{IsNext, IsScript, end_of};
ghost use Rattle.sdl_script.specs.ScriptText.{Adds, HasFault, Refuses, Says, SaysNothing, SaysScript};

use crate::byte::is_space;
use crate::fault::Fault;
use crate::line::split_line;
use crate::meaning::signal_of;
use crate::spelling::Spelling;
use port_model::{Item, Ticks};
use sdl_system::{Dest, System};
use std::alloc::Global;
use std::error::Error;
use std::fmt;

/// A script: its lines in order, without those that say nothing. Their times never fall.
#[derive(Drop)]
pub struct Script {
    pub lines: Vec<ScriptLine>,
}

/// A time, and the signal that the environment sends then, if there is one.
#[derive(Drop)]
pub struct ScriptLine {
    pub at: Ticks,
    pub signal: Option<ScriptSignal>,
}

/// A signal from the environment, and where it goes: along a path, to the first process of a name, or to an instance by
/// its number.
#[derive(Drop)]
pub struct ScriptSignal {
    pub item: Item,
    pub to: Dest,
}

/// Why a script is refused, with the number of the line, from 1.
#[derive(Clone, Copy, Debug, PartialEq, Eq)]
pub enum ScriptError {
    /// The line isn't `TIME [NAME [ "(" value {"," value} ")" ] [ "to" ("#" NUMBER | NAME) ]]`, or its time is past
    /// 1,000,000,000,000,000.
    Syntax(usize),
    /// The time is below that of a line before.
    BackInTime(usize),
    /// No signal of the system's own scope has this name. Or no process has the name behind `to`, or no `to` stands
    /// there and no path leads the signal from the environment to a process.
    UnknownSignal(usize),
    /// The values aren't as many as the signal has parameters, or one doesn't fit its parameter's sort, or the number
    /// of the receiver is past 32 bits.
    Arguments(usize),
    Memory,
}

/// The line that tells it, without its end.
impl fmt::Display for ScriptError {
    ghost use Rattle.std.specs.Prelude.{Some};
    ghost use Rattle.sdl_script.specs.ErrorText.{script_text};

    ghost output = { λ error. Some (script_text error) };

    fn fmt<W: fmt::Write>(&self, f: &mut fmt::Formatter<W>) -> fmt::Result {
        match self {
            ScriptError::Syntax(number) => write!(f, "script {number} Syntax"),
            ScriptError::BackInTime(number) => write!(f, "script {number} BackInTime"),
            ScriptError::UnknownSignal(number) => write!(f, "script {number} UnknownSignal"),
            ScriptError::Arguments(number) => write!(f, "script {number} Arguments"),
            ScriptError::Memory => write!(f, "script Memory"),
        }
    }
}

impl Error for ScriptError {}

impl Script {
    /// The time of the last line, and 0 where there is none.
    pub fn end(&self) -> Ticks
        ensures { result ≡ end_of self.now.lines.items }
    {
        self.lines.last().map_or(Ticks::new(0), |line| line.at)
    }
}

/// Reads a script.
///
/// A line ends with LF, and a CR before that is dropped; the last line may lack its LF. Lines of blanks and tabs, and
/// those that begin with `#`, are read over. Before, between and behind the parts of a line blanks and tabs may stand.
/// Of several faults the first line's is told, and in it the first of Syntax, BackInTime, UnknownSignal and Arguments.
pub fn read_script(alloc: Global, system: &System, text: &[u8]) -> Result<Script, ScriptError>
    ensures script { IfOk result (λ script. IsScript system.now script.lines.items) }
    ensures read { IfOk result (λ script. SaysScript system.now text.now script.lines.items) }
    ensures refused { IfErr result (λ error. Refuses error system.now text.now) }
{
    let mut script = Script {
        lines: Vec::new(alloc),
    };
    let mut number = 0;
    let mut rest = text;
    while !rest.is_empty() {
        let (line, behind) = split_line(rest);
        number += 1;
        if let Err(fault) = add_line(alloc, &mut script, system, line) {
            return Err(fault.at(number));
        }
        rest = behind;
    }
    Ok(script)
}

/// Adds what a line says behind the script.
#[tactic(auto, using(crate::proofs::ScriptLemmas::script_grows))]
fn add_line(alloc: Global, script: &mut Script, system: &System, line: &[u8]) -> Result<(), Fault>
    requires { IsScript system.now script.old.lines.items }
    ensures script { OnOk result (IsScript system.now script.new.lines.items) }
    ensures added { OnOk result (Adds system.now line.now script.old.lines.items script.new.lines.items) }
    ensures fault { IfErr result (λ fault. HasFault fault system.now (end_of script.old.lines.items) line.now) }
{
    if let Some(said) = read_line(alloc, system, line, script.end())? {
        script.lines.push(said)?;
    }
    Ok(())
}

/// Reads a line. None if the line is read over. `earliest` is the time of the line before.
fn read_line(
    alloc: Global,
    system: &System,
    line: &[u8],
    earliest: Ticks,
) -> Result<Option<ScriptLine>, Fault>
    ensures next { IfOk result (λ said. IfSome said (IsNext system.now earliest)) }
    ensures says { IfOk result (Says system.now line.now) }
    ensures fault { IfErr result (λ fault. HasFault fault system.now earliest line.now) }
{
    if says_nothing(line) {
        return Ok(None);
    }
    let Spelling { at, signal } = Spelling::read(alloc, line)?;
    if at < earliest {
        return Err(Fault::BackInTime);
    }
    let signal = match signal {
        None => None,
        Some(spelled) => Some(signal_of(alloc, system, &spelled)?),
    };
    Ok(Some(ScriptLine { at, signal }))
}

fn says_nothing(line: &[u8]) -> bool
    ensures nothing { OnTrue result (SaysNothing line.now) }
    ensures something { OnFalse result (¬ SaysNothing line.now) }
{
    line.first() == Some(&b'#') || is_empty_line(line)
}

fn is_empty_line(line: &[u8]) -> bool
    ensures { result ≡ list_all is_space line.now }
{
    line.iter().all(|byte| is_space(*byte))
}
