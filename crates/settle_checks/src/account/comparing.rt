//! What is recorded, compared with what was put.

ghost use Rattle.std.specs.Prelude.{◌≡◌, List, OnOk};
ghost use Rattle.settle_checks.specs.Account.{AreCompared, HaveSignals};
ghost use Rattle.settle_checks.specs.Outputs.{targets_of};
ghost use Rattle.settle_meaning.specs.Puts.{Heard, signals_heard, signals_of};
ghost use Rattle.settle_checks.specs.Summary.{AreSummaries};

use crate::account::ordering::all_ordered;
use crate::account::putting::{all_heard, all_put};
use crate::account::records::{all_caused, all_lived, all_made};
use crate::account::routing::all_meant;
use crate::account::summing::all_timed;
use crate::names::named;
use crate::summing::Summary;
use run_record::{Record, RunError};
use sdl_script::ScriptLine;
use sdl_system::{System, Target};
use std::alloc::Global;
use threads_ports::{Peers, Run};

/// Compares the records, by their summaries, with each other and with what the senders of all places have put. `lines` are
/// the lines of the script that were heard, the first ones of `script`, and `targets` has where their signals went.
///
/// Lost, with a number: a record is missing or there is one too many, the first number out of order or 0; a create of null
/// has no cause, an instance starts at another time than it is created, or more of a process live on than may, 0; the
/// signal of a timer is taken before its time, the number of that instance; a signal went another way than the routes lead,
/// the sender's, 0 for the environment; or it is missing, the number that it should have reached; or it is taken before it
/// was sent, 0.
pub fn compare<J: Run>(
    alloc: Global,
    system: &System,
    records: &[Record],
    sums: &[Summary],
    places: &[Peers<J>],
    script: &[ScriptLine],
    lines: &[ScriptLine],
    targets: &[Target],
) -> Result<(), RunError>
    requires { AreSummaries records.now sums.now }
    ensures { OnOk result ((heard : List Heard) → signals_heard heard ≡ signals_of lines.now
        → targets_of heard ≡ targets.now → HaveSignals heard script.now
        → AreCompared system.now script.now heard records.now places.now) }
{
    all_made(alloc, system, records, sums)?;
    all_caused(system, records, sums)?;
    all_lived(system, records, sums)?;
    all_timed(alloc, records, sums)?;
    all_meant(alloc, system, records, sums, lines, targets)?;
    let names = named(alloc, lines)?;
    if places.is_empty() {
        return Err(RunError::Lost(0));
    }
    all_heard(alloc, records, &places[0], targets, &names)?;
    all_put(alloc, records, sums, places, &names)?;
    all_ordered(alloc, records, sums, places, script, targets)?;
    Ok(())
}
