//! The conditions of a state.

ghost use Rattle.std.specs.Prelude.{◌≡◌, ◌≢◌, ◌⊎◌, IfErr, IfOk, IfSome, Ok, OnOk, length};
ghost use Rattle.run_record.specs.Knowledge.{environment_of};
ghost use Rattle.sdl_failures.specs.Fails.{ComesTo, ContinuousFails, EachBefore, EnablingFails, HasTruth, IsStop, StopsAt, StopsContinuous, StopsEnabling, StopsIn, enabling_of};

use crate::replayed::cause::is_same;
use port_model::Alone;
use run_record::{Failure, Knowledge, is_true};
use sdl_system::{ConditionId, Process, StateTable};
use std::alloc::Global;

/// Why the conditions of a state are tried no further.
#[derive(Clone, Copy, PartialEq, Eq)]
pub enum Stopped {
    /// This one fails by what is asked for.
    At(ConditionId),
    /// One fails by something else, isn't there, or begins a transition.
    Otherwise,
}

/// The condition that fails a state with this table by this, which is no lack of memory: an enabling one, or if none of
/// them fails, that of a continuous signal.
pub fn failing_condition(
    alloc: Global,
    process: &Process,
    knowledge: &Knowledge<'_, Alone>,
    table: &StateTable,
    why: Failure,
) -> Option<ConditionId>
    requires { why ≢ Failure.Memory }
    ensures { let here = environment_of knowledge.now in IfSome result (λ number.
        EnablingFails process.now here table.now number why ⊎ ContinuousFails process.now here table.now number why) }
{
    let Err(stopped) = try_conditions(alloc, process, knowledge, table, why) else {
        return None;
    };
    match stopped {
        Stopped::At(number) => Some(number),
        Stopped::Otherwise => None,
    }
}

/// Tries the enabling conditions, and then those of the continuous signals.
fn try_conditions(
    alloc: Global,
    process: &Process,
    knowledge: &Knowledge<'_, Alone>,
    table: &StateTable,
    why: Failure,
) -> Result<(), Stopped>
    requires { why ≢ Failure.Memory }
    ensures { let here = environment_of knowledge.now in
        IfErr result (λ stopped. StopsIn process.now here table.now why stopped) }
{
    try_enabling(alloc, process, knowledge, table, why)?;
    try_continuous(alloc, process, knowledge, table, why)
}

fn try_enabling(
    alloc: Global,
    process: &Process,
    knowledge: &Knowledge<'_, Alone>,
    table: &StateTable,
    why: Failure,
) -> Result<(), Stopped>
    requires { why ≢ Failure.Memory }
    ensures ok { let numbers = enabling_of table.now in
        OnOk result (EachBefore (HasTruth process.now (environment_of knowledge.now)) numbers (length numbers)) }
    ensures err { let here = environment_of knowledge.now in
        IfErr result (λ stopped. StopsEnabling process.now here table.now why stopped) }
{
    for one in &table.conditions {
        truth_of(alloc, process, knowledge, one.condition, why)?;
    }
    Ok(())
}

/// The condition of each continuous signal is false, as far as they are tried.
fn try_continuous(
    alloc: Global,
    process: &Process,
    knowledge: &Knowledge<'_, Alone>,
    table: &StateTable,
    why: Failure,
) -> Result<(), Stopped>
    requires { why ≢ Failure.Memory }
    ensures { let here = environment_of knowledge.now in
        IfErr result (λ stopped. StopsContinuous process.now here table.now why stopped) }
{
    for one in &table.continuous {
        let truth = truth_of(alloc, process, knowledge, one.condition, why)?;
        if truth {
            return Err(Stopped::Otherwise);
        }
    }
    Ok(())
}

/// Whether the condition of this number is true.
fn truth_of(
    alloc: Global,
    process: &Process,
    knowledge: &Knowledge<'_, Alone>,
    number: ConditionId,
    why: Failure,
) -> Result<bool, Stopped>
    requires { why ≢ Failure.Memory }
    ensures ok { let here = environment_of knowledge.now in
        IfOk result (λ truth. ComesTo process.now here number (Ok truth)) }
    ensures err { let here = environment_of knowledge.now in
        IfErr result (λ stopped. StopsAt process.now here number why stopped) }
{
    let Some(condition) = process.conditions.get(number.0 as usize) else {
        return Err(Stopped::Otherwise);
    };
    match is_true(alloc, condition, knowledge) {
        Ok(truth) => Ok(truth),
        Err(found) => Err(stopped_by(number, found, why)),
    }
}

/// Where this condition fails by what was found.
fn stopped_by(number: ConditionId, found: Failure, why: Failure) -> Stopped
    ensures { IsStop number found why result }
{
    if is_same(found, why) {
        return Stopped::At(number);
    }
    Stopped::Otherwise
}
