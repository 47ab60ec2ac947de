//! Enabling conditions, with what waits while each is false.

ghost use Rattle.std.specs.Prelude.{◌≡◌, IfOk, map, option_copied};
ghost use Rattle.build_tables.specs.Grouped.{waiting_by, waits_by};
ghost use Rattle.build_tables.specs.Linked.{enabled_value, enabling_value, is_for, waits_for};

use crate::waiting::{Waiting, condition_of, waiting_of};
use sdl_system::{ConditionId, Enabled, Enabling, Reaction, Reactions};
use std::alloc::{AllocError, Global};

/// The enabling conditions of a state, each with the signals that wait for it, of so many signals.
pub fn conditions_of(
    alloc: Global,
    signals: u32,
    reactions: &Reactions,
    rest: Option<&Reaction>,
    enabling: &[ConditionId],
) -> Result<Vec<Enabling>, AllocError>
    ensures { IfOk result (λ list. map enabling_value list.items
        ≡ map (waits_for reactions.now signals (option_copied rest.entry)) enabling.now) }
{
    let waiting = waiting_of(alloc, reactions, signals)?;
    all_enabled(alloc, &waiting, condition_of(rest), enabling)
}

fn all_enabled(
    alloc: Global,
    waiting: &Waiting,
    of_rest: Option<ConditionId>,
    enabling: &[ConditionId],
) -> Result<Vec<Enabling>, AllocError>
    ensures { IfOk result (λ list. map enabling_value list.items ≡ map (waits_by waiting.now of_rest) enabling.now) }
{
    let mut list = Vec::new(alloc);
    for condition in enabling {
        let signals = enabled_by(alloc, waiting, of_rest, *condition)?;
        list.push(Enabling {
            condition: *condition,
            signals,
        })?;
    }
    Ok(list)
}

/// Gives the signals that wait for a condition.
fn enabled_by(
    alloc: Global,
    waiting: &Waiting,
    of_rest: Option<ConditionId>,
    condition: ConditionId,
) -> Result<Enabled, AllocError>
    ensures { IfOk result (λ signals. enabled_value signals ≡ waiting_by waiting.now of_rest condition) }
{
    if is_for(condition, of_rest) {
        return Ok(Enabled::Rest);
    }
    let mut list = Vec::new(alloc);
    list.extend_from_slice(waiting.get(condition))?;
    Ok(Enabled::Named(list))
}

fn is_for(condition: ConditionId, other: Option<ConditionId>) -> bool
    ensures { result ≡ is_for condition other }
{
    match other {
        None => false,
        Some(other) => condition.0 == other.0,
    }
}
