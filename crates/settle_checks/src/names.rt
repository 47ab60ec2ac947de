//! The numbers that a script names.

ghost use Rattle.std.specs.Prelude.{◌≡◌, [], List, IfOk};
ghost use Rattle.settle_checks.specs.Names.{AddsNamed, AddsOnly, AreNamedBy};
ghost use Rattle.settle_checks.specs.Outputs.{AreNamed};
ghost use Rattle.settle_meaning.specs.Puts.{Heard, signals_heard, signals_of};

use crate::numbers::MOST_INSTANCES;
use port_model::{Pid, Value};
use sdl_script::{ScriptLine, ScriptSignal};
use sdl_system::Dest;
use std::alloc::{AllocError, Global};

/// For each number that an instance may have, whether a signal of these lines names it: the signal is sent there, or
/// the number is among its values.
pub fn named(alloc: Global, lines: &[ScriptLine]) -> Result<Vec<bool>, AllocError>
    ensures { IfOk result (λ named. (heard : List Heard) → signals_heard heard ≡ signals_of lines.now
        → AreNamed heard named.items) }
{
    let mut named = no_names(alloc)?;
    for line in lines {
        if let Some(signal) = &line.signal {
            add_signal(&mut named, signal);
        }
    }
    Ok(named)
}

/// No number is named.
fn no_names(alloc: Global) -> Result<Vec<bool>, AllocError>
    ensures { IfOk result (λ named. AreNamedBy [] named.items) }
{
    let mut named = Vec::new(alloc);
    for _number in 0..MOST_INSTANCES + 1 {
        named.push(false)?;
    }
    Ok(named)
}

/// Adds the numbers that a signal names.
fn add_signal(named: &mut Vec<bool>, signal: &ScriptSignal)
    ensures { AddsNamed named.old.items signal.now named.new.items }
{
    if let Dest::Pid(pid) = signal.to {
        add(named, pid);
    }
    for value in signal.item.values.as_slice() {
        if let Value::Pid(pid) = *value {
            add(named, pid);
        }
    }
}

/// Adds the number of an instance.
fn add(named: &mut Vec<bool>, pid: Pid)
    ensures { AddsOnly named.old.items pid named.new.items }
{
    let Pid::Of(number) = pid else {
        return;
    };
    let index = number as usize;
    if index < named.len() {
        named[index] = true;
    }
}
