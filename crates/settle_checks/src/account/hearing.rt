//! What the environment sends and its senders have put.

ghost use Rattle.std.specs.Prelude.{◌≡◌, ◌∷◌, IfOk, IsTrue, List, OnOk, option_to_list};
ghost use Rattle.sdl_script.specs.declared.script.ScriptLine.{ScriptLine};
ghost use Rattle.settle_checks.specs.Account.{HaveSignals};
ghost use Rattle.settle_checks.specs.Crossed.{AreHeardAlone, IsHeardRest, heard_passes};
ghost use Rattle.settle_checks.specs.Outputs.{targets_of};
ghost use Rattle.settle_meaning.specs.Identities.{AreRising};
ghost use Rattle.settle_meaning.specs.Order.{times_heard};
ghost use Rattle.settle_meaning.specs.OrderLaws.{AreTimesFrom};
ghost use Rattle.settle_meaning.specs.Puts.{Heard};
ghost use Rattle.settle_checks.specs.Flows.{passes_to};
ghost use Rattle.settle_checks.specs.Summary.{AreSummaries};
ghost use Rattle.settle_checks.specs.declared.summing.flows.Pass.{Pass};

use crate::account::sending::send_passes;
use crate::summing::{Crossing, Pass, Summary};
use port_model::{Pid, SignalId};
use run_record::{Record, RunError};
use sdl_script::ScriptLine;
use sdl_system::Target;
use std::alloc::{AllocError, Global};
use threads_ports::{Peers, Run};

/// What the environment sends, by the lines of the script and where the signals of the first of them went, and its senders
/// have put. Lost: a signal is missing of a line after the create of its receiver, with that one's number; or a line is
/// before an earlier one, with 0.
pub fn heard_crossings<J: Run>(
    alloc: Global,
    records: &[Record],
    sums: &[Summary],
    peers: &Peers<J>,
    lines: &[ScriptLine],
    targets: &[Target],
) -> Result<Vec<Crossing>, RunError>
    requires rising { AreRising 0 records.now }
    requires sums { AreSummaries records.now sums.now }
    ensures { IfOk result (λ sent. (heard : List Heard) → targets_of heard ≡ targets.now
        → HaveSignals heard lines.now → AreHeardAlone lines.now heard records.now peers.now sent.items) }
{
    if !are_in_turn(lines) {
        return Err(RunError::Lost(0));
    }
    let passes = passes_heard(alloc, lines, targets)?;
    let mut sent = Vec::new(alloc);
    send_passes(alloc, &mut sent, records, sums, Pid::Env, &passes, peers)?;
    Ok(sent)
}

/// Whether no line is before an earlier one.
#[tactic(auto, using(crate::proofs::HearLemmas::turn_first, crate::proofs::HearLemmas::turn_more, crate::proofs::HearLemmas::turn_all))]
fn are_in_turn(lines: &[ScriptLine]) -> bool
    ensures { IsTrue result → AreTimesFrom 0 (times_heard lines.now) }
{
    let mut last: u64 = 0;
    for line in lines {
        let at = line.at.get();
        if at < last {
            return false;
        }
        last = at;
    }
    true
}

/// What was found of the signals of the script: how many were looked at, and what went to instances.
#[derive(Drop)]
struct Hearing {
    place: usize,
    passes: Vec<Pass>,
}

/// The signals of the script that went to instances, each with the time of its line. `targets` has where the signals of
/// the first lines went; all others are not heard.
#[tactic(auto, using(crate::proofs::HearLemmas::heard_first, crate::proofs::HearLemmas::heard_all))]
fn passes_heard(
    alloc: Global,
    lines: &[ScriptLine],
    targets: &[Target],
) -> Result<Vec<Pass>, AllocError>
    ensures { IfOk result (λ passes. (heard : List Heard) → targets_of heard ≡ targets.now → HaveSignals heard lines.now
        → passes.items ≡ heard_passes (times_heard lines.now) heard) }
{
    let mut hearing = Hearing {
        place: 0,
        passes: Vec::new(alloc),
    };
    for line in lines {
        hearing.note(line, targets)?;
    }
    let Hearing { passes, .. } = hearing;
    Ok(passes)
}

impl Hearing {
    /// Notes a line.
    #[tactic(auto, using(crate::proofs::HearLemmas::note_none))]
    fn note(&mut self, line: &ScriptLine, targets: &[Target]) -> Result<(), AllocError>
        ensures { OnOk result ((heard : List Heard) (rest : List ScriptLine) (all : List Pass)
            → targets_of heard ≡ targets.now
            → IsHeardRest (line.now ∷ rest) heard all self.old.place self.old.passes.items
            → IsHeardRest rest heard all self.new.place self.new.passes.items) }
    {
        let Some(signal) = &line.signal else {
            return Ok(());
        };
        if self.place >= targets.len() {
            return Ok(());
        }
        let target = targets[self.place];
        self.place += 1;
        let Some(pass) = pass_to(line.at.get(), signal.item.name, target) else {
            return Ok(());
        };
        self.passes.push(pass)?;
        Ok(())
    }
}

/// The signal of this name that goes to an instance at this time, if the target is one.
fn pass_to(at: u64, name: SignalId, target: Target) -> Option<Pass>
    ensures { option_to_list result ≡ passes_to at name target }
{
    match target {
        Target::Instance(number) => Some(Pass {
            peer: Pid::Of(number),
            name,
            at,
        }),
        _ => None,
    }
}
