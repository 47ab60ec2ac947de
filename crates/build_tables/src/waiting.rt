//! The signals that wait for each condition.

ghost use Rattle.std.specs.Prelude.{◌≡◌, ◌++◌, ◌∷◌, [], Some, IfOk, OnOk, if◌then◌else◌, option_copied};
ghost use Rattle.sdl_system.specs.declared.id.ConditionId.{ConditionId};
ghost use Rattle.build_tables.specs.Grouped.{group_of};
ghost use Rattle.build_tables.specs.Linked.{condition_of, is_for, waiting_for};

use indexmap::IndexMap;
use port_model::SignalId;
use sdl_system::{Choice, ConditionId, Reaction, Reactions};
use std::alloc::{AllocError, Global};
use std::marker::Model;

/// The signals that wait for each condition, by their numbers.
#[derive(Drop)]
pub struct Waiting {
    by_condition: IndexMap<ConditionId, Vec<SignalId>>,
}

impl Model for Waiting {
    ghost use Rattle.std.specs.Prelude.{List, map};
    ghost use Rattle.port_model.specs.declared.values.item.SignalId.{SignalId};
    ghost use Rattle.sdl_system.specs.declared.id.ConditionId.{ConditionId};
    ghost use Rattle.build_tables.specs.Grouped.{group_value};

    ghost Value = { List (ConditionId × List SignalId) };

    ghost view = { λ waiting. map group_value waiting.by_condition.entries };
}

impl Waiting {
    fn new(alloc: Global) -> Self
        ensures { result ≡ [] }
    {
        Waiting {
            by_condition: IndexMap::new(alloc),
        }
    }

    /// The signals that wait for a condition.
    pub fn get(&self, condition: ConditionId) -> &[SignalId]
        ensures { result.now ≡ group_of self.now condition }
    {
        match self.by_condition.get(&condition) {
            None => &[],
            Some(signals) => signals,
        }
    }

    /// Adds a signal that waits for a condition.
    fn add(
        &mut self,
        alloc: Global,
        condition: ConditionId,
        signal: SignalId,
    ) -> Result<(), AllocError>
        ensures { OnOk result ((other : ConditionId) → group_of self.new other
            ≡ group_of self.old other ++ (if is_for other (Some condition) then signal ∷ [] else [])) }
    {
        let signals = self
            .by_condition
            .swap_remove(&condition)
            .unwrap_or(Vec::new(alloc));
        let signals = pushed(signals, signal)?;
        self.by_condition.insert(condition, signals)?;
        Ok(())
    }

    /// Adds a signal that waits for a condition, if there is one.
    fn add_for(
        &mut self,
        alloc: Global,
        condition: Option<ConditionId>,
        signal: SignalId,
    ) -> Result<(), AllocError>
        ensures { OnOk result ((other : ConditionId) → group_of self.new other
            ≡ group_of self.old other ++ (if is_for other condition then signal ∷ [] else [])) }
    {
        match condition {
            None => Ok(()),
            Some(condition) => self.add(alloc, condition, signal),
        }
    }
}

fn pushed(signals: Vec<SignalId>, signal: SignalId) -> Result<Vec<SignalId>, AllocError>
    ensures { IfOk result (λ pushed. pushed.items ≡ signals.items ++ signal ∷ []) }
{
    let mut signals = signals;
    signals.push(signal)?;
    Ok(signals)
}

/// Which of so many signals wait for each condition.
pub fn waiting_of(alloc: Global, reactions: &Reactions, signals: u32) -> Result<Waiting, AllocError>
    ensures { IfOk result (λ waiting. (condition : ConditionId) →
        group_of waiting condition ≡ waiting_for reactions.now condition signals) }
{
    let mut waiting = Waiting::new(alloc);
    for number in 0..signals {
        let signal = SignalId(number);
        waiting.add_for(alloc, condition_of(reactions.get(signal)), signal)?;
    }
    Ok(waiting)
}

/// The condition without which a signal waits.
pub fn condition_of(reaction: Option<&Reaction>) -> Option<ConditionId>
    ensures { result ≡ condition_of (option_copied reaction.entry) }
{
    Choice::of(reaction).condition
}
