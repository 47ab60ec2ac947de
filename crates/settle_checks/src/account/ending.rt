//! The end of a run.

ghost use Rattle.std.specs.Prelude.{◌≡◌, List, IfOk, take};
ghost use Rattle.settle_checks.specs.Ending.{IsEnding};
ghost use Rattle.settle_checks.specs.Summary.{AreSummaries};
ghost use Rattle.sdl_script.specs.Script as script;
ghost use Rattle.settle_meaning.specs.Puts.{Heard, signals_heard, signals_of};

use crate::summing::{Summary, latest, transitions};
use port_model::Ticks;
use run_record::{Record, RunError};
use sdl_script::ScriptLine;

/// How a run ended: whether it is whole, and its limit of transitions.
#[derive(Clone, Copy)]
pub struct Ending {
    pub whole: bool,
    pub limit: u64,
}

/// The time at which a run ends of whose script so many lines were heard: that of the last line if it is whole, and that
/// of the last event if it is cut. Lost with 0: it is whole, and a line of the script was not heard, something happened
/// after the last line, or the limit is reached; or it is cut, and the limit isn't reached.
pub fn end_of_run(
    lines: &[ScriptLine],
    line: usize,
    records: &[Record],
    sums: &[Summary],
    ending: Ending,
) -> Result<Ticks, RunError>
    requires { AreSummaries records.now sums.now }
    ensures { IfOk result (λ end. (heard : List Heard)
        → signals_heard heard ≡ signals_of (take line lines.now)
        → IsEnding ending.whole lines.now ending.limit heard records.now end) }
{
    let Some(count) = transitions(records, sums) else {
        return Err(RunError::Lost(0));
    };
    let latest = latest(records, sums);
    if ending.whole {
        let end = last_time(lines);
        if count >= ending.limit || line < lines.len() || latest > end.get() {
            return Err(RunError::Lost(0));
        }
        return Ok(end);
    }
    if count < ending.limit {
        return Err(RunError::Lost(0));
    }
    Ok(Ticks::new(latest))
}

/// The time of the last line, and 0 where there is none.
fn last_time(lines: &[ScriptLine]) -> Ticks
    ensures { result ≡ script.end_of lines.now }
{
    lines.last().map_or(Ticks::new(0), |line| line.at)
}
