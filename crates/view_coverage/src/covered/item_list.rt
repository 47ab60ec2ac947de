//! The items of a process, one after the other.

ghost use Rattle.std.specs.Prelude.{◌≡◌, ◌++◌, ◌∷◌, [], map, slice_get, string_bytes, OnOk};
ghost use Rattle.build_names.specs.Labels.{names_listed};
ghost use Rattle.sdl_tree.specs.Views.{name_value};
ghost use Rattle.view_coverage.specs.Sections.{answer_if, answer_kind, answer_of, answer_row, answer_rows, known_rows, row_at, rows_listed, state_row, state_rows, stimulus_kind, stimulus_row};

use crate::covered::answers::Answers;
use crate::covered::section::Material;
use crate::covered::times::{awaited_times, times_of};
use crate::covered::words::{awaited_text, decision_text, in_text, name_text, place_text};
use crate::goals::{AnswerGoal, ProcessGoals, StimulusGoal};
use crate::point::Passage;
use crate::sections::{Branch, Item, Kind};
use build_definitions::next_number;
use sdl_lex::Place;
use sdl_system::{ProcessId, StateId};
use sdl_tree::Name;
use std::alloc::{AllocError, Global};

/// Adds the states of a process.
pub fn add_states(
    alloc: Global,
    items: &mut Vec<Item>,
    material: &Material<'_, '_>,
    goals: &ProcessGoals<'_>,
) -> Result<(), AllocError>
    ensures { OnOk result (rows_listed items.new.items ≡ rows_listed items.old.items
        ++ state_rows material.now.counts.now goals.now.number 0 (names_listed goals.now.states.items)) }
{
    let mut next = 0;
    for name in &goals.states {
        add_state(alloc, items, material, goals.number, StateId(next), *name)?;
        next = next_number(next)?;
    }
    Ok(())
}

fn add_state(
    alloc: Global,
    items: &mut Vec<Item>,
    material: &Material<'_, '_>,
    process: ProcessId,
    state: StateId,
    name: &Name,
) -> Result<(), AllocError>
    ensures { OnOk result (rows_listed items.new.items ≡ rows_listed items.old.items
        ++ state_row material.now.counts.now process state (name_value name.now) ∷ []) }
{
    let owner = in_text(alloc, name.text.as_str())?;
    let what = String::from_str(alloc, "entered")?;
    let times = times_of(material.counts, process, state, Passage::Entered);
    add_item(alloc, items, Kind::State, name.place, owner, what, times)
}

/// Adds what the states of a process wait for.
pub fn add_stimuli(
    alloc: Global,
    items: &mut Vec<Item>,
    material: &Material<'_, '_>,
    goals: &ProcessGoals<'_>,
) -> Result<(), AllocError>
    ensures { OnOk result (rows_listed items.new.items ≡ rows_listed items.old.items
        ++ map (stimulus_row material.now.system.now material.now.counts.now goals.now.number goals.now.states.items)
        goals.now.stimuli.items) }
{
    for goal in &goals.stimuli {
        add_stimulus(alloc, items, material, goals.number, &goals.states, *goal)?;
    }
    Ok(())
}

fn add_stimulus(
    alloc: Global,
    items: &mut Vec<Item>,
    material: &Material<'_, '_>,
    process: ProcessId,
    states: &[&Name],
    goal: StimulusGoal,
) -> Result<(), AllocError>
    ensures { OnOk result (rows_listed items.new.items ≡ rows_listed items.old.items
        ++ stimulus_row material.now.system.now material.now.counts.now process states.now goal ∷ []) }
{
    let owner = in_text(alloc, name_text(states, goal.state))?;
    let what = awaited_text(alloc, material.system, goal.awaited)?;
    let times = awaited_times(material, process, goal.state, goal.awaited)?;
    add_item(
        alloc,
        items,
        stimulus_kind(goal),
        goal.place,
        owner,
        what,
        times,
    )
}

fn stimulus_kind(goal: StimulusGoal) -> Kind
    ensures { result ≡ stimulus_kind goal }
{
    Kind::Stimulus(Branch {
        place: goal.place,
        number: goal.state.0,
    })
}

/// Adds the answers of the decisions of a process, if they are known.
pub fn add_answers(
    alloc: Global,
    items: &mut Vec<Item>,
    material: &Material<'_, '_>,
    process: ProcessId,
) -> Result<(), AllocError>
    ensures { OnOk result (rows_listed items.new.items ≡ rows_listed items.old.items
        ++ known_rows process material.now.goals.now.answers.items material.now.answers.now) }
{
    match material.answers {
        Answers::Known(counts) => {
            add_known(alloc, items, process, &material.goals.answers, counts)
        }
        Answers::NotOfThreads | Answers::OtherRun => Ok(()),
    }
}

fn add_known(
    alloc: Global,
    items: &mut Vec<Item>,
    process: ProcessId,
    goals: &[AnswerGoal],
    counts: &[u64],
) -> Result<(), AllocError>
    ensures { OnOk result (rows_listed items.new.items
        ≡ rows_listed items.old.items ++ answer_rows process counts.now 0 goals.now) }
{
    let mut next = 0;
    for goal in goals {
        add_answer_of(alloc, items, process, goal, count_at(counts, next))?;
        next = next_number(next)?;
    }
    Ok(())
}

fn count_at(counts: &[u64], number: u32) -> Option<u64>
    ensures { result ≡ slice_get counts.now number }
{
    counts.get(number as usize).copied()
}

/// Adds an answer with its count, if there is one.
fn add_answer_of(
    alloc: Global,
    items: &mut Vec<Item>,
    process: ProcessId,
    goal: &AnswerGoal,
    times: Option<u64>,
) -> Result<(), AllocError>
    ensures { OnOk result (rows_listed items.new.items
        ≡ rows_listed items.old.items ++ answer_of process goal.now times) }
{
    match times {
        Some(times) => add_answer_if(alloc, items, process, goal, times),
        None => Ok(()),
    }
}

/// Adds an answer if it is one of this process.
fn add_answer_if(
    alloc: Global,
    items: &mut Vec<Item>,
    process: ProcessId,
    goal: &AnswerGoal,
    times: u64,
) -> Result<(), AllocError>
    ensures { OnOk result (rows_listed items.new.items
        ≡ rows_listed items.old.items ++ answer_if process goal.now times) }
{
    if goal.process == process {
        add_answer(alloc, items, goal, times)
    } else {
        Ok(())
    }
}

fn add_answer(
    alloc: Global,
    items: &mut Vec<Item>,
    goal: &AnswerGoal,
    times: u64,
) -> Result<(), AllocError>
    ensures { OnOk result (rows_listed items.new.items
        ≡ rows_listed items.old.items ++ answer_row goal.now times ∷ []) }
{
    let owner = decision_text(alloc, goal.decision)?;
    let what = String::from_str(alloc, goal.answers.as_str())?;
    add_item(
        alloc,
        items,
        answer_kind(goal),
        goal.place,
        owner,
        what,
        times,
    )
}

fn answer_kind(goal: &AnswerGoal) -> Kind
    ensures { result ≡ answer_kind goal.now }
{
    Kind::Answer(Branch {
        place: goal.decision,
        number: goal.branch,
    })
}

fn add_item(
    alloc: Global,
    items: &mut Vec<Item>,
    kind: Kind,
    place: Place,
    owner: String,
    what: String,
    times: u64,
) -> Result<(), AllocError>
    ensures { OnOk result (rows_listed items.new.items ≡ rows_listed items.old.items
        ++ row_at kind place (string_bytes owner) (string_bytes what) times ∷ []) }
{
    let at = place_text(alloc, place)?;
    items.push(Item {
        kind,
        place,
        at,
        owner,
        what,
        times,
    })?;
    Ok(())
}
