//! Continuous signals, in the order in which they are tried.

ghost use Rattle.std.specs.Prelude.{◌≡◌, IfOk, map, option_map};
ghost use Rattle.build_states.specs.Listed.{continuous_value};
ghost use Rattle.build_states.specs.Ordered.{numbered_value};
ghost use Rattle.build_states.specs.States.{numbered_from, tried};
ghost use Rattle.build_tables.specs.Linked.{ContinuousOf, continuous_linked};

use crate::reaction::entry_of;
use build_states::{ContinuousSignal, NumberedSignal, tried};
use sdl_system::{Continuous, NodeId};
use std::alloc::{AllocError, Global};

/// The continuous signals of a state in the order in which they are tried, each with the node at which its transition
/// begins. None where a transition has no entry.
pub fn continuous_of(
    alloc: Global,
    entries: &[NodeId],
    signals: &[ContinuousSignal],
) -> Result<Option<Vec<Continuous>>, AllocError>
    ensures { IfOk result (λ list. ContinuousOf entries.now
        (tried (numbered_from 1 (map continuous_value signals.now))) (option_map (λ list. list.items) list)) }
{
    let numbered = tried(alloc, signals)?;
    all_linked(alloc, entries, &numbered)
}

fn all_linked(
    alloc: Global,
    entries: &[NodeId],
    numbered: &[NumberedSignal],
) -> Result<Option<Vec<Continuous>>, AllocError>
    ensures { IfOk result (λ list. ContinuousOf entries.now (map numbered_value numbered.now)
        (option_map (λ list. list.items) list)) }
{
    let mut list = Vec::new(alloc);
    for one in numbered {
        let Some(linked) = linked(entries, one) else {
            return Ok(None);
        };
        list.push(linked)?;
    }
    Ok(Some(list))
}

fn linked(entries: &[NodeId], one: &NumberedSignal) -> Option<Continuous>
    ensures { result ≡ continuous_linked entries.now (numbered_value one.now) }
{
    let begin = entry_of(entries, one.signal.begin)?;
    Some(Continuous {
        condition: one.signal.condition,
        number: one.number,
        begin,
    })
}
