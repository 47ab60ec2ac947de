//! The places of a transition at which something is wanted.

use crate::expression_sites::{add_arguments, add_expression, add_value};
use crate::site::{Kind, Use, What};
use crate::sites::Sites;
use sdl_tree::{
    Action, Answer, AnswerPart, Applied, Assignment, Destination, Expression, ResetGroup,
    SetClause, Transition,
};
use std::alloc::AllocError;

/// Adds what stands in a transition.
#[cycle(transition)]
pub fn add_transition<'t>(
    sites: &mut Sites<'t>,
    transition: &'t Transition,
) -> Result<(), AllocError> {
    for statement in &transition.actions {
        add_action(sites, &statement.action)?;
    }
    Ok(())
}

#[cycle(transition)]
fn add_action<'t>(sites: &mut Sites<'t>, action: &'t Action) -> Result<(), AllocError> {
    match action {
        Action::Task { assignments, .. } => add_assignments(sites, assignments),
        Action::Output {
            outputs,
            destination,
            ..
        } => {
            add_all(sites, outputs, Kind::Signal)?;
            add_destination(sites, destination)
        }
        Action::Set { clauses, .. } => add_clauses(sites, clauses),
        Action::Reset { groups, .. } => add_groups(sites, groups),
        Action::Create { process, .. } => add_applied(sites, process, Kind::Process),
        Action::Decision {
            question,
            parts,
            otherwise,
            ..
        } => {
            add_expression(sites, question, Kind::Value)?;
            add_answers(sites, question, parts)?;
            add_parts(sites, parts)?;
            match otherwise {
                Some(transition) => add_transition(sites, transition),
                None => Ok(()),
            }
        }
    }
}

/// Adds the transitions to which the answers of a decision lead.
#[cycle(transition)]
fn add_parts<'t>(sites: &mut Sites<'t>, parts: &'t [AnswerPart]) -> Result<(), AllocError> {
    for part in parts {
        add_transition(sites, &part.transition)?;
    }
    Ok(())
}

/// Adds the answers of a decision.
fn add_answers<'t>(
    sites: &mut Sites<'t>,
    question: &'t Expression,
    parts: &'t [AnswerPart],
) -> Result<(), AllocError> {
    for part in parts {
        add_part_answers(sites, question, &part.answers)?;
    }
    Ok(())
}

fn add_part_answers<'t>(
    sites: &mut Sites<'t>,
    question: &'t Expression,
    answers: &'t [Answer],
) -> Result<(), AllocError> {
    let given = Use::Answer(question);
    for answer in answers {
        match answer {
            Answer::Value(value) | Answer::Compared { value, .. } => {
                add_value(sites, value, given)?;
            }
            Answer::Range { first, last } => {
                add_value(sites, first, given)?;
                add_value(sites, last, given)?;
            }
        }
    }
    Ok(())
}

fn add_assignments<'t>(
    sites: &mut Sites<'t>,
    assignments: &'t [Assignment],
) -> Result<(), AllocError> {
    for assignment in assignments {
        sites.add_name(&assignment.variable, Kind::Variable)?;
        add_value(
            sites,
            &assignment.value,
            Use::Assigned(&assignment.variable),
        )?;
    }
    Ok(())
}

fn add_destination<'t>(
    sites: &mut Sites<'t>,
    destination: &'t Option<Destination>,
) -> Result<(), AllocError> {
    match destination {
        Some(destination) => add_value(sites, &destination.value, Use::Destination),
        None => Ok(()),
    }
}

fn add_clauses<'t>(sites: &mut Sites<'t>, clauses: &'t [SetClause]) -> Result<(), AllocError> {
    for clause in clauses {
        let name = &clause.timer.name;
        match &clause.time {
            Some(time) => add_value(sites, time, Use::SetTime)?,
            None => sites.add(name.place, What::SetAlone(name))?,
        }
        add_applied(sites, &clause.timer, Kind::Timer)?;
    }
    Ok(())
}

fn add_groups<'t>(sites: &mut Sites<'t>, groups: &'t [ResetGroup]) -> Result<(), AllocError> {
    for group in groups {
        add_all(sites, &group.timers, Kind::Timer)?;
    }
    Ok(())
}

fn add_all<'t>(sites: &mut Sites<'t>, all: &'t [Applied], kind: Kind) -> Result<(), AllocError> {
    for applied in all {
        add_applied(sites, applied, kind)?;
    }
    Ok(())
}

fn add_applied<'t>(
    sites: &mut Sites<'t>,
    applied: &'t Applied,
    kind: Kind,
) -> Result<(), AllocError> {
    sites.add_name(&applied.name, kind)?;
    add_arguments(sites, &applied.name, &applied.values, kind)
}
