//! Continuous signals (Z.102: continuous signal).

ghost use Rattle.std.specs.Prelude.{◌≡◌, ◌⊎◌, IfErr, IfOk, List, true};
ghost use Rattle.std.specs.List.{AllZip, list_any};
ghost use Rattle.run_record.specs.Knowledge.{environment_of};
ghost use Rattle.run_record.specs.Memory.{wants_memory};
ghost use Rattle.sdl_interp.specs.Selected.{IsTried};
ghost use Rattle.run_semantics.specs.Fails.{conditions_of};
ghost use Rattle.run_semantics.specs.Selection.{fails, tried};
ghost use Rattle.sdl_system.specs.Behaviour.{ContinuousSignal, MeansContinuous};
ghost use Rattle.sdl_system.specs.declared.id.NodeId.{NodeId};

use crate::condition::is_condition_true;
use port_model::Inbox;
use run_record::{Failure, Knowledge};
use sdl_system::{Continuous, Process};
use std::alloc::Global;

/// The first of these continuous signals whose condition is true; those behind it aren't evaluated. Errors: those of
/// the first condition that fails before one is true.
pub fn first_true<P: Inbox>(
    alloc: Global,
    signals: &[Continuous],
    process: &Process,
    knowledge: &Knowledge<'_, P>,
) -> Result<Option<Continuous>, Failure>
    ensures ok { let here = environment_of knowledge.now in
        IfOk result (λ found. (entries : List NodeId) (meant : List ContinuousSignal)
        → AllZip (MeansContinuous process.now entries) signals.now meant → IsTried entries found (tried here meant)) }
    ensures err { let here = environment_of knowledge.now in
        IfErr result (λ why. (entries : List NodeId) (meant : List ContinuousSignal)
        → AllZip (MeansContinuous process.now entries) signals.now meant
        → (tried here meant ≡ fails why)
        ⊎ ((why ≡ Failure.Memory) × (list_any wants_memory (conditions_of meant) ≡ true))) }
{
    for signal in signals {
        if is_condition_true(alloc, signal.condition, process, knowledge)? {
            return Ok(Some(*signal));
        }
    }
    Ok(None)
}
