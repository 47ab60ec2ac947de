//! The labels of a process.

ghost use Rattle.std.specs.Prelude.{◌≡◌, ◌++◌, flat_map, map, option_map, IfOk, OnOk};
ghost use Rattle.build_names.specs.Labels.{action_labels, actions_labels, body_labels, ending_labels, label_words, names_listed, otherwise_labels, parts_labels, process_labels, stimulus_labels, transition_labels};
ghost use Rattle.sdl_tree.specs.Tree as tree;
ghost use Rattle.sdl_tree.specs.Views.{action_value, answer_part_value, body_part_value, ending_value, name_value, process_value, statement_value, stimulus_value, transition_value};

use sdl_tree::{
    Action, ActionStatement, AnswerPart, BodyPart, FreeAction, Name, ProcessDefinition, Stimulus,
    TerminatorStatement, Transition,
};
use std::alloc::{AllocError, Global};

/// The labels of a process in the order of the text, each as often as it stands: those of the start transition, then
/// those behind it. The label of a connection comes before those of its transition.
pub fn labels_of<'t>(
    alloc: Global,
    process: &'t ProcessDefinition,
) -> Result<Vec<&'t Name>, AllocError>
    ensures { IfOk result (λ labels. names_listed labels.items ≡ process_labels (process_value process.now)) }
{
    let mut labels = Vec::new(alloc);
    add_transition(&mut labels, &process.start.transition)?;
    add_body(&mut labels, &process.body)?;
    Ok(labels)
}

fn add_body<'t>(labels: &mut Vec<&'t Name>, parts: &'t [BodyPart]) -> Result<(), AllocError>
    ensures { OnOk result (names_listed labels.new.items
        ≡ names_listed labels.old.items ++ flat_map body_labels (map body_part_value parts.now)) }
{
    for part in parts {
        add_body_part(labels, part)?;
    }
    Ok(())
}

fn add_body_part<'t>(labels: &mut Vec<&'t Name>, part: &'t BodyPart) -> Result<(), AllocError>
    ensures { OnOk result (names_listed labels.new.items
        ≡ names_listed labels.old.items ++ body_labels (body_part_value part.now)) }
{
    match part {
        BodyPart::State(part) => add_stimuli(labels, &part.stimuli),
        BodyPart::FreeAction(action) => add_free_action(labels, action),
    }
}

fn add_free_action<'t>(labels: &mut Vec<&'t Name>, action: &'t FreeAction) -> Result<(), AllocError>
    ensures { OnOk result (names_listed labels.new.items ≡ names_listed labels.old.items
        ++ body_labels (tree.FreeAction action.now.word (name_value action.now.label)
        (transition_value action.now.transition))) }
{
    labels.push(&action.label)?;
    add_transition(labels, &action.transition)
}

fn add_stimuli<'t>(labels: &mut Vec<&'t Name>, stimuli: &'t [Stimulus]) -> Result<(), AllocError>
    ensures { OnOk result (names_listed labels.new.items
        ≡ names_listed labels.old.items ++ flat_map stimulus_labels (map stimulus_value stimuli.now)) }
{
    for stimulus in stimuli {
        add_stimulus(labels, stimulus)?;
    }
    Ok(())
}

fn add_stimulus<'t>(labels: &mut Vec<&'t Name>, stimulus: &'t Stimulus) -> Result<(), AllocError>
    ensures { OnOk result (names_listed labels.new.items
        ≡ names_listed labels.old.items ++ stimulus_labels (stimulus_value stimulus.now)) }
{
    match stimulus {
        Stimulus::Input(part) => add_transition(labels, &part.transition),
        Stimulus::Priority(part) => add_transition(labels, &part.transition),
        Stimulus::Save(_) => Ok(()),
        Stimulus::Continuous(part) => add_transition(labels, &part.transition),
    }
}

#[cycle(transition)]
fn add_transition<'t>(
    labels: &mut Vec<&'t Name>,
    transition: &'t Transition,
) -> Result<(), AllocError>
    ensures { OnOk result (names_listed labels.new.items
        ≡ names_listed labels.old.items ++ transition_labels (transition_value transition.now)) }
{
    add_statements(labels, &transition.actions)?;
    add_ending(labels, &transition.terminator)
}

#[cycle(transition)]
fn add_statements<'t>(
    labels: &mut Vec<&'t Name>,
    statements: &'t [ActionStatement],
) -> Result<(), AllocError>
    ensures { OnOk result (names_listed labels.new.items ≡ names_listed labels.old.items
        ++ actions_labels (tree.actions_of (map statement_value statements.now))) }
{
    for statement in statements {
        add_label(labels, &statement.label)?;
        add_action(labels, &statement.action)?;
    }
    Ok(())
}

#[cycle(transition)]
fn add_action<'t>(labels: &mut Vec<&'t Name>, action: &'t Action) -> Result<(), AllocError>
    ensures { OnOk result (names_listed labels.new.items
        ≡ names_listed labels.old.items ++ action_labels (action_value action.now)) }
{
    match action {
        Action::Decision {
            parts,
            otherwise,
            ..
        } => {
            add_parts(labels, parts)?;
            add_otherwise(labels, otherwise)
        }
        _ => Ok(()),
    }
}

#[cycle(transition)]
fn add_parts<'t>(labels: &mut Vec<&'t Name>, parts: &'t [AnswerPart]) -> Result<(), AllocError>
    ensures { OnOk result (names_listed labels.new.items ≡ names_listed labels.old.items
        ++ parts_labels (tree.parts_of (map answer_part_value parts.now))) }
{
    for part in parts {
        add_part(labels, part)?;
    }
    Ok(())
}

#[cycle(transition)]
fn add_part<'t>(labels: &mut Vec<&'t Name>, part: &'t AnswerPart) -> Result<(), AllocError>
    ensures { OnOk result (names_listed labels.new.items
        ≡ names_listed labels.old.items ++ transition_labels (answer_part_value part.now).transition) }
{
    add_transition(labels, &part.transition)
}

#[cycle(transition)]
fn add_otherwise<'t>(
    labels: &mut Vec<&'t Name>,
    otherwise: &'t Option<Transition>,
) -> Result<(), AllocError>
    ensures { OnOk result (names_listed labels.new.items ≡ names_listed labels.old.items
        ++ otherwise_labels (tree.else_of (option_map transition_value otherwise.now))) }
{
    match otherwise {
        None => Ok(()),
        Some(transition) => add_transition(labels, transition),
    }
}

fn add_ending<'t>(
    labels: &mut Vec<&'t Name>,
    ending: &'t Option<TerminatorStatement>,
) -> Result<(), AllocError>
    ensures { OnOk result (names_listed labels.new.items
        ≡ names_listed labels.old.items ++ ending_labels (option_map ending_value ending.now)) }
{
    match ending {
        None => Ok(()),
        Some(ending) => add_label(labels, &ending.label),
    }
}

/// Adds the label of a statement, where it has one.
fn add_label<'t>(labels: &mut Vec<&'t Name>, label: &'t Option<Name>) -> Result<(), AllocError>
    ensures { OnOk result (names_listed labels.new.items
        ≡ names_listed labels.old.items ++ label_words (option_map name_value label.now)) }
{
    match label {
        None => Ok(()),
        Some(label) => {
            labels.push(label)?;
            Ok(())
        }
    }
}
