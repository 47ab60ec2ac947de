//! What the states of a process wait for.

ghost use Rattle.std.specs.Prelude.{◌≡◌, ◌++◌, fold, map, string_bytes, IfOk, OnOk};
ghost use Rattle.build_names.specs.Labels.{names_listed};
ghost use Rattle.sdl_tree.specs.Views.{body_part_value, input_value, inputs_value, stimulus_value};
ghost use Rattle.view_coverage.specs.Stimuli.{goals_at, input_goals, inputs_goals, listed_goals, signal_outward, stimuli_in, with_continuous, with_part, with_stimuli, with_stimulus};

use crate::goals::goal::{Awaited, StimulusGoal, Urgency};
use crate::goals::goal_list::GoalList;
use crate::goals::part_states::states_in;
use build_expressions::SignalMeaning;
use build_names::Outward;
use port_model::SignalId;
use sdl_lex::Place;
use sdl_system::StateId;
use sdl_tree::{BodyPart, Input, Inputs, Name, Stimulus};
use std::alloc::{AllocError, Global};

/// What the states of a process wait for, in the order of the text. The states have these names; the signals and
/// timers are those that can be named in the process.
pub fn stimuli_of(
    alloc: Global,
    body: &[BodyPart],
    states: &[&Name],
    signals: &Outward<'_, '_, SignalMeaning<'_>>,
) -> Result<Vec<StimulusGoal>, AllocError>
    ensures { IfOk result (λ goals. goals.items
        ≡ stimuli_in (signal_outward signals.now) (names_listed states.now) (map body_part_value body.now)) }
{
    let mut goals = GoalList::new(alloc);
    for part in body {
        add_part(alloc, &mut goals, part, states, signals)?;
    }
    Ok(goals.into_goals())
}

fn add_part(
    alloc: Global,
    goals: &mut GoalList,
    part: &BodyPart,
    states: &[&Name],
    signals: &Outward<'_, '_, SignalMeaning<'_>>,
) -> Result<(), AllocError>
    ensures { OnOk result (goals.new
        ≡ with_part (signal_outward signals.now) (names_listed states.now) goals.old (body_part_value part.now)) }
{
    match part {
        BodyPart::State(part) => {
            let own = states_in(alloc, &part.states, states)?;
            add_stimuli(goals, &part.stimuli, &own, signals)
        }
        BodyPart::FreeAction(_) => Ok(()),
    }
}

fn add_stimuli(
    goals: &mut GoalList,
    stimuli: &[Stimulus],
    states: &[StateId],
    signals: &Outward<'_, '_, SignalMeaning<'_>>,
) -> Result<(), AllocError>
    ensures { OnOk result (goals.new
        ≡ with_stimuli (signal_outward signals.now) states.now goals.old (map stimulus_value stimuli.now)) }
{
    for stimulus in stimuli {
        add_stimulus(goals, stimulus, states, signals)?;
    }
    Ok(())
}

fn add_stimulus(
    goals: &mut GoalList,
    stimulus: &Stimulus,
    states: &[StateId],
    signals: &Outward<'_, '_, SignalMeaning<'_>>,
) -> Result<(), AllocError>
    ensures { OnOk result (goals.new
        ≡ with_stimulus (signal_outward signals.now) states.now goals.old (stimulus_value stimulus.now)) }
{
    match stimulus {
        Stimulus::Input(input) => add_inputs(goals, &input.inputs, states, signals),
        Stimulus::Priority(input) => {
            add_listed(goals, &input.inputs, Urgency::Priority, states, signals)
        }
        Stimulus::Save(_) => Ok(()),
        Stimulus::Continuous(signal) => add_continuous(goals, signal.word.place, states),
    }
}

fn add_inputs(
    goals: &mut GoalList,
    inputs: &Inputs,
    states: &[StateId],
    signals: &Outward<'_, '_, SignalMeaning<'_>>,
) -> Result<(), AllocError>
    ensures { OnOk result (goals.new
        ≡ goals.old ++ inputs_goals (signal_outward signals.now) states.now (inputs_value inputs.now)) }
{
    match inputs {
        Inputs::Listed(inputs) => add_listed(goals, inputs, Urgency::Plain, states, signals),
        Inputs::All(asterisk) => add_each(goals, states, asterisk.place, Awaited::Rest),
    }
}

fn add_listed(
    goals: &mut GoalList,
    inputs: &[Input],
    urgency: Urgency,
    states: &[StateId],
    signals: &Outward<'_, '_, SignalMeaning<'_>>,
) -> Result<(), AllocError>
    ensures { OnOk result (goals.new
        ≡ goals.old ++ listed_goals (signal_outward signals.now) states.now urgency (map input_value inputs.now)) }
{
    for input in inputs {
        add_named(goals, input, urgency, states, signals)?;
    }
    Ok(())
}

fn add_named(
    goals: &mut GoalList,
    input: &Input,
    urgency: Urgency,
    states: &[StateId],
    signals: &Outward<'_, '_, SignalMeaning<'_>>,
) -> Result<(), AllocError>
    ensures { OnOk result (goals.new
        ≡ goals.old ++ input_goals (signal_outward signals.now) states.now urgency (input_value input.now)) }
{
    match signal_named(signals, &input.signal) {
        None => Ok(()),
        Some(signal) => {
            let awaited = Awaited::Signal(urgency, signal);
            add_each(goals, states, input.signal.place, awaited)
        }
    }
}

/// The signal or the timer of this name.
fn signal_named(signals: &Outward<'_, '_, SignalMeaning<'_>>, name: &Name) -> Option<SignalId>
    ensures { result ≡ signal_outward signals.now (string_bytes name.now.text) }
{
    match signals.get(name.text.as_str())? {
        SignalMeaning::Signal { number, .. } | SignalMeaning::Timer { number, .. } => Some(number),
    }
}

/// Adds a goal of each of these states.
fn add_each(
    goals: &mut GoalList,
    states: &[StateId],
    place: Place,
    awaited: Awaited,
) -> Result<(), AllocError>
    ensures { OnOk result (goals.new ≡ goals.old ++ goals_at states.now place awaited) }
{
    for state in states {
        goals.push(StimulusGoal {
            place,
            state: *state,
            awaited,
        })?;
    }
    Ok(())
}

/// Adds a continuous signal of each of these states.
fn add_continuous(goals: &mut GoalList, place: Place, states: &[StateId]) -> Result<(), AllocError>
    ensures { OnOk result (goals.new ≡ fold (with_continuous place) goals.old states.now) }
{
    for state in states {
        let goal = goals.continuous_goal(place, *state)?;
        goals.push(goal)?;
    }
    Ok(())
}
