//! Conditions of a process: those of its inputs and of its continuous signals (Z.102: enabling condition).

ghost use Rattle.std.specs.Prelude.{◌≡◌, ◌⊎◌, IfErr, IfOk, List, Ok, Some, map};
ghost use Rattle.run_record.specs.Knowledge.{environment_of};
ghost use Rattle.run_record.specs.Memory.{FailsAs, wants_memory};
ghost use Rattle.run_record.specs.Value.{truth_at};
ghost use Rattle.sdl_interp.specs.Condition.{are_conditions};
ghost use Rattle.run_semantics.specs.Selection.{first_failure};
ghost use Rattle.sdl_system.specs.Behaviour.{condition_in};
ghost use Rattle.sdl_system.specs.Term.{Term};

use port_model::Inbox;
use run_record::{Failure, Knowledge, is_true};
use sdl_system::{ConditionId, Enabling, Process};
use std::alloc::Global;

/// Whether the condition of this number is true. Errors: those of its expression.
pub fn is_condition_true<P: Inbox>(
    alloc: Global,
    number: ConditionId,
    process: &Process,
    knowledge: &Knowledge<'_, P>,
) -> Result<bool, Failure>
    ensures ok { IfOk result (λ truth. (term : Term) → condition_in process.now number ≡ Some term
        → truth_at (environment_of knowledge.now) term ≡ Ok truth) }
    ensures err { IfErr result (λ why. (term : Term) → condition_in process.now number ≡ Some term
        → FailsAs (wants_memory term) (truth_at (environment_of knowledge.now) term) why) }
{
    let Some(condition) = process.conditions.get(number.0 as usize) else {
        return Ok(false);
    };
    is_true(alloc, condition, knowledge)
}

/// The truths of the enabling conditions of a state, in their order. Errors: those of the first condition that fails,
/// and `Memory`.
#[inline(never)]
pub fn truths<P: Inbox>(
    alloc: Global,
    conditions: &[Enabling],
    process: &Process,
    knowledge: &Knowledge<'_, P>,
) -> Result<Vec<bool>, Failure>
    ensures ok { IfOk result (λ truths. (terms : List Term) → are_conditions process.now conditions.now ≡ map Some terms
        → map (truth_at (environment_of knowledge.now)) terms ≡ map Ok truths.items) }
    ensures err { IfErr result (λ why. (terms : List Term) → are_conditions process.now conditions.now ≡ map Some terms
        → (why ≡ Failure.Memory) ⊎ (first_failure (environment_of knowledge.now) terms ≡ Some why)) }
{
    let mut truths = Vec::new(alloc);
    for enabling in conditions {
        let truth = is_condition_true(alloc, enabling.condition, process, knowledge)?;
        if let Err(_) = truths.push(truth) {
            return Err(Failure::Memory);
        }
    }
    Ok(truths)
}
