//! A list of goals, with the numbers of its continuous signals.

ghost use Rattle.std.specs.Prelude.{◌≡◌, ◌++◌, [], ◌∷◌, true, false, count_by, IfOk, OnOk};
ghost use Rattle.view_coverage.specs.Stimuli.{continuous_goal, is_continuous, is_continuous_of};

use crate::goals::goal::{Awaited, StimulusGoal};
use build_definitions::next_number;
use indexmap::IndexMap;
use sdl_lex::Place;
use sdl_system::StateId;
use std::alloc::{AllocError, Global};
use std::marker::Model;

/// What the states of a process wait for, as far as it is listed.
#[derive(Drop)]
pub struct GoalList {
    goals: Vec<StimulusGoal>,
    /// How many of them are continuous signals of each state.
    continuous: IndexMap<StateId, u32>,
}

impl Model for GoalList {
    ghost use Rattle.std.specs.Prelude.{◌≡◌, List, count_by, unwrap_or};
    ghost use Rattle.std.specs.Map.{lookup};
    ghost use Rattle.sdl_system.specs.declared.id.StateId.{StateId};
    ghost use Rattle.view_coverage.specs.Stimuli.{is_continuous_of, same_state};
    ghost use Rattle.view_coverage.specs.declared.goals.goal.StimulusGoal.{StimulusGoal};

    ghost Value = { List StimulusGoal };

    ghost view = { λ list. list.goals.items };

    ghost invariant = { λ list. (state : StateId) → unwrap_or (lookup (same_state state) list.continuous.entries) 0
        ≡ count_by (is_continuous_of state) list.goals.items };
}

impl GoalList {
    /// No goals yet.
    pub fn new(alloc: Global) -> Self
        ensures { result ≡ [] }
    {
        GoalList {
            goals: Vec::new(alloc),
            continuous: IndexMap::new(alloc),
        }
    }

    /// Adds a goal.
    pub fn push(&mut self, goal: StimulusGoal) -> Result<(), AllocError>
        ensures { OnOk result (self.new ≡ self.old ++ goal ∷ []) }
    {
        match goal.awaited {
            Awaited::Continuous(_) => self.push_continuous(goal),
            Awaited::Signal(..) | Awaited::Rest => self.push_other(goal),
        }
    }

    /// The goal at this place that is one continuous signal more of a state.
    pub fn continuous_goal(&self, place: Place, state: StateId) -> Result<StimulusGoal, AllocError>
        ensures { IfOk result (λ goal. goal ≡ continuous_goal place self.now state) }
    {
        let number = next_number(self.count(state))?;
        Ok(StimulusGoal {
            place,
            state,
            awaited: Awaited::Continuous(number),
        })
    }

    /// The goals alone.
    pub fn into_goals(self) -> Vec<StimulusGoal>
        ensures { result.items ≡ self }
    {
        let GoalList { goals, .. } = self;
        goals
    }

    fn push_continuous(&mut self, goal: StimulusGoal) -> Result<(), AllocError>
        requires { is_continuous goal.awaited ≡ true }
        ensures { OnOk result (self.new ≡ self.old ++ goal ∷ []) }
    {
        let number = next_number(self.count(goal.state))?;
        self.goals.reserve(1)?;
        self.continuous.insert(goal.state, number)?;
        self.goals.push(goal)?;
        Ok(())
    }

    fn push_other(&mut self, goal: StimulusGoal) -> Result<(), AllocError>
        requires { is_continuous goal.awaited ≡ false }
        ensures { OnOk result (self.new ≡ self.old ++ goal ∷ []) }
    {
        self.goals.push(goal)?;
        Ok(())
    }

    /// How many continuous signals of a state are among them.
    fn count(&self, state: StateId) -> u32
        ensures { result ≡ count_by (is_continuous_of state) self.now }
    {
        self.continuous.get(&state).copied().unwrap_or(0)
    }
}
