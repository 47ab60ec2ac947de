//! A serial run.

ghost use Rattle.std.specs.Prelude.{◌≡◌, [], IfErr, IfOk, List, None, Some, if◌then◌else◌};
ghost use Rattle.run_semantics.specs.Behaves.{AreBehaviours};
ghost use Rattle.serial_order.specs.Report.{IsSerialReport};
ghost use Rattle.serial_run.specs.Told.{IsSerialRun};
ghost use Rattle.sdl_system.specs.Behaviour.{Behaviour};

use crate::instances::Instances;
use crate::listener::{Listener, Nobody};
use crate::stepping::Stepping;
use crate::world::Effects;
use port_model::{KeptWords, Ticks};
use run_record::{Report, RunError};
use sdl_script::Script;
use sdl_system::System;
use serial_sweeps::{Agenda, InstanceSet, Scheduler};
use std::alloc::Global;

/// What a serial run comes to.
#[derive(Drop)]
pub struct SerialRun {
    pub report: Report,
    /// Whose events were told, one after the other, as far as that is kept: the number of the instance for each event, and
    /// 0 for a line of the script.
    pub order: KeptWords,
}

/// Runs a system serially on a script, until all instances rest, the script is at its end and no timer is due by then,
/// or until `limit` transitions are made. Refused for lack of memory alone.
pub fn run_serial(
    alloc: Global,
    system: &System,
    script: &Script,
    limit: u64,
) -> Result<Report, RunError>
    ensures serial { IfOk result (λ report. (ps : List Behaviour) → AreBehaviours system.now ps
        → IsSerialReport ps system.now script.now.lines.items limit report) }
    ensures err { IfErr result (λ why. why ≡ RunError.Memory) }
{
    run_serial_heard(alloc, system, script, limit, Nobody)
}

/// Does the same while somebody listens: who hears of the end once the last transition is made, also if memory fails.
pub fn run_serial_heard<L: Listener>(
    alloc: Global,
    system: &System,
    script: &Script,
    limit: u64,
    listener: L,
) -> Result<Report, RunError>
    ensures serial { IfOk result (λ report. (ps : List Behaviour) → AreBehaviours system.now ps
        → IsSerialReport ps system.now script.now.lines.items limit report) }
    ensures err { IfErr result (λ why. why ≡ RunError.Memory) }
{
    let run = run_serial_noted(alloc, system, script, limit, listener, false)?;
    Ok(run.report)
}

/// Does the same, and keeps whose events are told, if that is asked for. If there is no memory for that, it is given up,
/// and the run goes on.
pub fn run_serial_noted<L: Listener>(
    alloc: Global,
    system: &System,
    script: &Script,
    limit: u64,
    listener: L,
    keeps_order: bool,
) -> Result<SerialRun, RunError>
    ensures serial { IfOk result (λ run. (ps : List Behaviour) → AreBehaviours system.now ps
        → IsSerialRun ps system.now script.now.lines.items limit run.report run.order) }
    ensures err { IfErr result (λ why. why ≡ RunError.Memory) }
{
    let mut agenda = Agenda::new(alloc);
    let instances = Instances::begin(alloc, &mut agenda, system)?;
    let mut stepping = Stepping {
        instances,
        effects: Effects::new(alloc),
        listener,
        order: order_of(alloc, keeps_order),
    };
    let mut sweeps = Scheduler::new(agenda, script.lines.as_slice(), stepping.given(), limit);
    let last = script.end();
    let ran = sweeps.run(alloc, &mut stepping, last);
    stepping.listener.end();
    let whole = ran?;
    let clock = clock_of(&sweeps);
    let end = if whole { last } else { clock };
    let Stepping {
        instances,
        order,
        ..
    } = stepping;
    let records = instances.close(alloc, whole)?;
    let report = Report {
        records,
        end,
        whole,
    };
    Ok(SerialRun { report, order })
}

/// Whose events are told, where that is kept: nobody's so far.
fn order_of(alloc: Global, keeps_order: bool) -> KeptWords
    ensures { result ≡ (if keeps_order then Some [] else None) }
{
    if keeps_order {
        KeptWords::new(alloc)
    } else {
        KeptWords::off()
    }
}

/// The time at which a run stands.
fn clock_of(sweeps: &Scheduler<'_>) -> Ticks
    ensures { result ≡ sweeps.now.agenda.clock }
{
    sweeps.agenda.clock
}
