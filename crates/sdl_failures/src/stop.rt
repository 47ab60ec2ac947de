//! A failure with its place in the text.

use crate::blame::blame;
use crate::located::{condition_at, definition_of, input_of, site_of};
use crate::operands::Scene;
use crate::place::place_of;
use crate::reason::{Blame, Reason};
use crate::replayed::{Failing, Halt, Misfit};
use crate::sentence::{answers_text, failure_text, reason_text};
use crate::statement::{site_place, statement_blame};
use port_model::SignalId;
use sdl_lex::Place;
use sdl_system::{ConditionId, NodeId, Process, StateId, Statement, System};
use sdl_tree::{Input, ProcessDefinition, Tree};
use std::alloc::{AllocError, Global};

/// Where an instance failed, and what is said of it.
#[derive(Drop)]
pub struct Stop {
    pub place: Place,
    pub sentence: String,
}

/// Where an instance failed in a text, and why. None: what failed isn't found in the tree.
pub fn stop_of(
    alloc: Global,
    tree: &Tree,
    system: &System,
    failing: &Failing<'_>,
) -> Result<Option<Stop>, AllocError> {
    let process = failing.process;
    let Some(definition) = definition_of(tree, failing.who.process, process) else {
        return Ok(None);
    };
    let scene = Scene {
        alloc,
        system,
        process,
        who: failing.who,
        known: &failing.known,
    };
    match failing.halt {
        Halt::Statement { node, part } => statement_stop(&scene, definition, failing, node, part),
        Halt::Reception {
            state,
            signal,
            misfit,
        } => reception_stop(&scene, definition, process, state, signal, misfit),
        Halt::Condition { condition, .. } => condition_stop(&scene, definition, failing, condition),
    }
}

/// A statement, and the word in it that fails.
fn statement_stop(
    scene: &Scene<'_>,
    definition: &ProcessDefinition,
    failing: &Failing<'_>,
    number: NodeId,
    part: usize,
) -> Result<Option<Stop>, AllocError> {
    let process = failing.process;
    let (Some(site), Some(node)) = (site_of(definition, process, number), process.node(number))
    else {
        return Ok(None);
    };
    let found = statement_blame(scene, site, &node.statement, part, failing.why);
    let mut stop = stop_by(scene.alloc, found, site_place(site), failing)?;
    if let (Some(blame), Statement::Decision(asked)) = (found, &node.statement)
        && let Reason::NoAnswer(_) = blame.reason
    {
        let answers = answers_text(scene.alloc, asked)?;
        stop.sentence.push_str(answers.as_str())?;
    }
    Ok(Some(stop))
}

/// A condition of a state, and the word in it that fails.
fn condition_stop(
    scene: &Scene<'_>,
    definition: &ProcessDefinition,
    failing: &Failing<'_>,
    number: ConditionId,
) -> Result<Option<Stop>, AllocError> {
    let meant = failing.process.conditions.get(number.0 as usize);
    let (Some(condition), Some(meant)) = (condition_at(definition, number), meant) else {
        return Ok(None);
    };
    let found = blame(scene, condition.expression, meant);
    let place = place_of(condition.expression);
    Ok(Some(stop_by(scene.alloc, found, place, failing)?))
}

/// What is said by the word that fails; if that isn't known, of the place by the failure.
fn stop_by(
    alloc: Global,
    found: Option<Blame<'_>>,
    place: Place,
    failing: &Failing<'_>,
) -> Result<Stop, AllocError> {
    match found {
        Some(blame) => Ok(Stop {
            place: blame.place,
            sentence: reason_text(alloc, &blame.reason)?,
        }),
        None => Ok(Stop {
            place,
            sentence: String::from_str(alloc, failure_text(failing.why))?,
        }),
    }
}

/// The variable of an input that a value doesn't fit.
fn reception_stop(
    scene: &Scene<'_>,
    definition: &ProcessDefinition,
    process: &Process,
    state: StateId,
    signal: SignalId,
    misfit: Misfit,
) -> Result<Option<Stop>, AllocError> {
    let (Some(state), Some(signal)) = (process.state(state), scene.system.signal(signal)) else {
        return Ok(None);
    };
    let Some(input) = input_of(definition, state.name.as_str(), signal.name.as_str()) else {
        return Ok(None);
    };
    let variable = process.variables.get(misfit.variable.0 as usize);
    let name = variable.map(|variable| variable.name.as_str());
    let reason = Reason::NotNatural {
        value: misfit.value,
        variable: name,
    };
    Ok(Some(Stop {
        place: variable_place(input, name),
        sentence: reason_text(scene.alloc, &reason)?,
    }))
}

/// The place of the variable of this name in an input; if it isn't there, that of the signal.
fn variable_place(input: &Input, name: Option<&str>) -> Place {
    for variable in &input.variables {
        if let (Some(variable), Some(name)) = (variable, name)
            && variable.text.as_str() == name
        {
            return variable.place;
        }
    }
    input.signal.place
}
