//! Whether all signals went where the routes lead them.

ghost use Rattle.std.specs.Prelude.{◌≡◌, List, All, IsTrue, OnOk};
ghost use Rattle.std.specs.List.{AllZip};
ghost use Rattle.settle_checks.specs.Account.{IsRight};
ghost use Rattle.settle_checks.specs.Outputs.{targets_of};
ghost use Rattle.settle_meaning.specs.Living.{AreLiving, AreMeant};
ghost use Rattle.settle_meaning.specs.Puts.{Heard, IsHeardRight, signals_heard, signals_of};
ghost use Rattle.settle_checks.specs.Summary.{AreSummaries};

use crate::summing::{Summary, are_meant, lived};
use crate::targets::{Routed, is_meant};
use run_record::{Record, RunError};
use sdl_script::{ScriptLine, ScriptSignal};
use sdl_system::{Source, System, Target};
use std::alloc::Global;

/// Looks whether all signals of the records and of these lines of the script went where the routes lead them, by some
/// instances that may have lived then. `targets` has where the signals of the lines went. Lost: with the number of the
/// sender, 0 for the environment.
pub fn all_meant(
    alloc: Global,
    system: &System,
    records: &[Record],
    sums: &[Summary],
    lines: &[ScriptLine],
    targets: &[Target],
) -> Result<(), RunError>
    requires { AreSummaries records.now sums.now }
    ensures outputs { OnOk result (All (AreMeant system.now records.now) records.now) }
    ensures signals { OnOk result ((heard : List Heard) → signals_heard heard ≡ signals_of lines.now
        → targets_of heard ≡ targets.now → All (IsHeardRight system.now records.now) heard) }
{
    let Some(mut first) = lived(alloc, system.processes().len(), records, sums)? else {
        return Err(RunError::Lost(0));
    };
    let first = first.as_mut_slice();
    outputs_right(system, records, sums, first)?;
    if !signals_right(system, records, first, lines, targets) {
        return Err(RunError::Lost(0));
    }
    Ok(())
}

/// Looks at the outputs of all records. `first` has the least numbers of those that lived all the time.
fn outputs_right(
    system: &System,
    records: &[Record],
    sums: &[Summary],
    first: &mut [Option<u32>],
) -> Result<(), RunError>
    requires living { AreLiving records.now first.old }
    requires sums { AreSummaries records.now sums.now }
    ensures right { OnOk result (All (AreMeant system.now records.now) records.now) }
    ensures same { first.new ≡ first.old }
{
    for k in 0..records.len() {
        if k >= sums.len() || !are_meant(system, records, first, &records[k], &sums[k]) {
            return Err(RunError::Lost(records[k].pid()));
        }
    }
    Ok(())
}

/// Whether the signals of these lines went to these targets, one by one, where the routes lead them.
fn signals_right(
    system: &System,
    records: &[Record],
    first: &mut [Option<u32>],
    lines: &[ScriptLine],
    targets: &[Target],
) -> bool
    requires { AreLiving records.now first.old }
    ensures { IsTrue result → AllZip (IsRight system.now records.now) (signals_of lines.now) targets.now }
{
    let mut place = 0;
    for line in lines {
        if let Some(signal) = &line.signal {
            if place >= targets.len() || !is_right(system, records, first, signal, targets[place]) {
                return false;
            }
            place += 1;
        }
    }
    place == targets.len()
}

/// Whether the signal of the script went where the routes lead it.
fn is_right(
    system: &System,
    records: &[Record],
    first: &mut [Option<u32>],
    signal: &ScriptSignal,
    target: Target,
) -> bool
    requires { AreLiving records.now first.old }
    ensures right { IsTrue result → IsRight system.now records.now signal.now target }
    ensures same { first.new ≡ first.old }
{
    let routed = Routed {
        signal: signal.item.name,
        from: Source::Env,
        to: signal.to,
        target,
    };
    is_meant(system, records, first, routed)
}
