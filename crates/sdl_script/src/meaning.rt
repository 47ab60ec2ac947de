//! What a spelled signal means in a system.

ghost use Rattle.std.specs.Prelude.{IfErr, IfOk};
ghost use Rattle.sdl_script.specs.Script.{IsFromEnv};
ghost use Rattle.sdl_script.specs.ScriptText.{AreArguments, AreNoArguments, HasSignalFault, IsDestination, IsReached, IsSent};
ghost use Rattle.sdl_script.specs.Spelled.{IsArgumentFault, HasNoWay, plain, plain_whither};

use crate::fault::Fault;
use crate::script::ScriptSignal;
use crate::spelling::{SpelledReceiver, SpelledSignal};
use crate::value::SpelledValue;
use port_model::{Item, Pid, SignalId, Values};
use sdl_system::{Dest, Sort, System};
use std::alloc::Global;

/// The signal that the environment sends by this spelling.
pub fn signal_of(
    alloc: Global,
    system: &System,
    spelled: &SpelledSignal<'_>,
) -> Result<ScriptSignal, Fault>
    ensures from_env { IfOk result (IsFromEnv system.now) }
    ensures sent { IfOk result (IsSent system.now (plain spelled.now)) }
    ensures fault { IfErr result (λ fault. HasSignalFault fault system.now (plain spelled.now)) }
{
    let Some(name) = system.signal_of_name(spelled.name) else {
        return Err(Fault::UnknownSignal);
    };
    let Some(signal) = system.signal(name) else {
        return Err(Fault::UnknownSignal);
    };
    let to = destination(system, name, spelled.to)?;
    let values = arguments(alloc, &spelled.values, &signal.sorts)?;
    let item = Item {
        name,
        values,
        sender: Pid::Env,
    };
    Ok(ScriptSignal { item, to })
}

/// Where the signal goes. No path is asked for where a receiver is named.
fn destination(
    system: &System,
    signal: SignalId,
    to: Option<SpelledReceiver<'_>>,
) -> Result<Dest, Fault>
    ensures reached { IfOk result (λ _. IsReached system.now signal (plain_whither to.entry)) }
    ensures ok { IfOk result (IsDestination system.now (plain_whither to.entry)) }
    ensures err { IfErr result (λ fault. HasNoWay fault system.now signal (plain_whither to.entry)) }
{
    match to {
        None if system.is_reached_from_env(signal) => Ok(Dest::Path),
        None => Err(Fault::UnknownSignal),
        Some(SpelledReceiver::Process(name)) => match system.process_of_name(name) {
            Some(process) => Ok(Dest::Process(process)),
            None => Err(Fault::UnknownSignal),
        },
        Some(SpelledReceiver::Instance(Some(number))) => Ok(Dest::Pid(Pid::Of(number))),
        Some(SpelledReceiver::Instance(None)) => Err(Fault::Arguments),
    }
}

/// The values, where each fits its parameter's sort.
fn arguments(alloc: Global, spelled: &[SpelledValue], sorts: &[Sort]) -> Result<Values, Fault>
    ensures ok { IfOk result (λ values. AreArguments spelled.now sorts.now values) }
    ensures err { IfErr result (λ fault. IsArgumentFault fault (AreNoArguments spelled.now sorts.now)) }
{
    if spelled.len() != sorts.len() {
        return Err(Fault::Arguments);
    }
    let mut values = Values::none(alloc);
    for (index, sort) in sorts.iter().enumerate() {
        let Some(value) = spelled[index].at(*sort) else {
            return Err(Fault::Arguments);
        };
        values.push(value)?;
    }
    Ok(values)
}
