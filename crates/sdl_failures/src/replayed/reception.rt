//! What an instance gets with a signal (Z.102: input).

ghost use Rattle.std.specs.Prelude.{◌≡◌, Err, IfSome, Ok, option_copied, true};
ghost use Rattle.run_record.specs.declared.evaluation.store.Store as stores;
ghost use Rattle.sdl_failures.specs.Received.{received, reception_in};

use port_model::{SignalId, Value};
use run_record::{Failure, Store, place};
use sdl_interp::sort_of;
use sdl_system::{Process, Reaction, Reception, StateId, VariableId};

/// A value that doesn't fit the variable to which it goes, and why.
#[derive(Clone, Copy, PartialEq, Eq)]
pub struct Misfit {
    pub variable: VariableId,
    pub value: Value,
    pub why: Failure,
}

/// What begins with a signal in a state, if it is taken there.
pub fn reception_in(
    process: &Process,
    state: Option<StateId>,
    signal: SignalId,
) -> Option<&Reception>
    ensures { option_copied result ≡ reception_in process.now state signal }
{
    let reaction = process.reaction(state?, signal)?;
    match reaction {
        Reaction::Input { reception, .. } => Some(reception),
        Reaction::Priority(reception) => Some(reception),
        Reaction::Save => None,
    }
}

/// Gives the values to the variables, one after the other. A value without a variable is dropped. False: one of them
/// doesn't fit.
pub fn receive(
    process: &Process,
    variables: &[Option<VariableId>],
    values: &[Value],
    store: &mut Store,
) -> bool
    ensures { result ≡ true → received process.now variables.now values.now store.old ≡ Ok store.new }
{
    for (variable, value) in variables.iter().zip(values) {
        if let Some(variable) = variable {
            let Ok(value) = place(*value, sort_of(process, *variable)) else {
                return false;
            };
            store.variables.set(*variable, value);
        }
    }
    true
}

/// The first of the values that doesn't fit its variable, if there is one.
pub fn misfit_of(
    process: &Process,
    variables: &[Option<VariableId>],
    values: &[Value],
) -> Option<Misfit>
    ensures { IfSome result
        (λ misfit. (s : stores.Store) → received process.now variables.now values.now s ≡ Err misfit) }
{
    for (variable, value) in variables.iter().zip(values) {
        if let Some(variable) = variable {
            if let Err(why) = place(*value, sort_of(process, *variable)) {
                return Some(Misfit {
                    variable: *variable,
                    value: *value,
                    why,
                });
            }
        }
    }
    None
}
