//! Whole transitions (Z.102: transition). What stands behind a statement is added before it, so that each node has the
//! place at which the flow goes on when it is added.

ghost use Rattle.std.specs.Prelude.{◌++◌, Option, Some, flat_map, map, option_map, IfOk, OnOk};
ghost use Rattle.build_statements.specs.Built.{BuiltIf, Table, table_of};
ghost use Rattle.build_statements.specs.Contexts.{context_of};
ghost use Rattle.build_statements.specs.Decided.{BuiltOtherIf, BuiltPieceIf, BuiltPiecesIf, HeadIf};
ghost use Rattle.build_statements.specs.Transitions.{action_faults, before, body_in, ending_faults, ending_in, head_in, labelled, other_faults, other_in, part_faults, piece_in, steps_faults, steps_in, transition_faults};
ghost use Rattle.build_names.specs.Faults.{Notes};
ghost use Rattle.build_expressions.specs.Partial.{all_some, both};
ghost use Rattle.sdl_system.specs.Body.{Body};
ghost use Rattle.sdl_system.specs.declared.id.NodeId as ids;
ghost use Rattle.sdl_tree.specs.Tree.{actions_of, else_of};
ghost use Rattle.sdl_tree.specs.Views.{action_value, answer_part_value, ending_value, statement_value, transition_value};

use crate::context::Context;
use crate::create::resolve_create;
use crate::list::and_last;
use crate::nodes::decision::{branch, decision, kind_of, question_of, resolve_answers};
use crate::nodes::later::note_later;
use crate::nodes::table::NodeTable;
use crate::output::resolve_output;
use crate::task::resolve_task;
use crate::terminator::resolve_terminator;
use crate::timer::{resolve_reset, resolve_set};
use build_expressions::{OperandSort, resolve};
use build_names::Faults;
use sdl_system::{Branch, NodeId, Statement, Way};
use sdl_tree::{Action, ActionStatement, AnswerPart, TerminatorStatement, Transition};
use std::alloc::{AllocError, Global};

/// Adds a transition whose paths without a terminator go on at `next`, and answers the place at which it begins: that
/// of its first node, or `next` where it has none.
///
/// Noted are the faults of its statements, in the order of the text. Where one of them has no meaning, the place and
/// what was added mean nothing. After an error some of its nodes are added, and the faults are as they were or more.
#[cycle(add)]
pub fn add<'t>(
    alloc: Global,
    context: &Context<'_, '_, 't>,
    table: &mut NodeTable,
    transition: &'t Transition,
    next: Option<NodeId>,
    faults: &mut Faults<'t>,
) -> Result<Option<NodeId>, AllocError>
    ensures built { IfOk result (λ place. BuiltIf (table_of table.old) (table_of table.new) place
        (body_in (context_of context.now) (transition_value transition.now)) next) }
    ensures noted { OnOk result (Notes faults.old faults.new
        (transition_faults (context_of context.now) (transition_value transition.now))) }
{
    add_steps(
        alloc,
        context,
        table,
        &transition.actions,
        &transition.terminator,
        next,
        faults,
    )
}

/// Adds actions and what ends them, the last first. The faults of what stands behind an action are noted apart.
#[cycle(add)]
fn add_steps<'t>(
    alloc: Global,
    context: &Context<'_, '_, 't>,
    table: &mut NodeTable,
    steps: &'t [ActionStatement],
    ending: &'t Option<TerminatorStatement>,
    next: Option<NodeId>,
    faults: &mut Faults<'t>,
) -> Result<Option<NodeId>, AllocError>
    ensures built { IfOk result (λ place. BuiltIf (table_of table.old) (table_of table.new) place
        (steps_in (context_of context.now) (actions_of (map statement_value steps.now))
        (ending_in (context_of context.now) (option_map ending_value ending.now))) next) }
    ensures noted { OnOk result (Notes faults.old faults.new
        (steps_faults (context_of context.now) (actions_of (map statement_value steps.now))
        ++ ending_faults (context_of context.now) (option_map ending_value ending.now))) }
{
    let mut later = Faults::new();
    let mut place = add_ending(context, table, ending, next, &mut later)?;
    let mut left = steps.len();
    while left > 0 {
        left -= 1;
        let mut here = Faults::new();
        place = add_step(alloc, context, table, &steps[left], place, &mut here)?;
        note_later(&later, &mut here);
        later = here;
    }
    note_later(&later, faults);
    Ok(place)
}

/// Adds an action with its label, where the flow goes on at `next` behind it.
#[cycle(add)]
fn add_step<'t>(
    alloc: Global,
    context: &Context<'_, '_, 't>,
    table: &mut NodeTable,
    step: &'t ActionStatement,
    next: Option<NodeId>,
    faults: &mut Faults<'t>,
) -> Result<Option<NodeId>, AllocError>
    ensures built { IfOk result (λ place. (first : Table) (behind : Option Body) (to : Option ids.NodeId)
        → BuiltIf first (table_of table.old) next behind to
        → BuiltIf first (table_of table.new) place (labelled (context_of context.now) (statement_value step.now).label
        (both before (head_in (context_of context.now) (statement_value step.now).action) behind)) to) }
    ensures noted { OnOk result (Notes faults.old faults.new
        (action_faults (context_of context.now) (statement_value step.now).action)) }
{
    let statement = add_head(alloc, context, table, &step.action, next, faults)?;
    table.place(context, &step.label, statement, next)
}

/// The statement of an action; the parts of a decision are added, and go on at `next`.
#[cycle(add)]
fn add_head<'t>(
    alloc: Global,
    context: &Context<'_, '_, 't>,
    table: &mut NodeTable,
    action: &'t Action,
    next: Option<NodeId>,
    faults: &mut Faults<'t>,
) -> Result<Option<Statement>, AllocError>
    ensures head { IfOk result (λ statement. HeadIf (table_of table.old) (table_of table.new) statement
        (head_in (context_of context.now) (action_value action.now)) next) }
    ensures noted { OnOk result (Notes faults.old faults.new
        (action_faults (context_of context.now) (action_value action.now))) }
{
    match action {
        Action::Task { assignments, .. } => resolve_task(alloc, context, assignments, faults),
        Action::Output {
            outputs,
            destination,
            ..
        } => resolve_output(alloc, context, outputs, destination, faults),
        Action::Set { clauses, .. } => resolve_set(alloc, context, clauses, faults),
        Action::Reset { groups, .. } => resolve_reset(alloc, context, groups, faults),
        Action::Create { process, .. } => resolve_create(alloc, context, process, faults),
        Action::Decision {
            question,
            parts,
            otherwise,
            ..
        } => {
            let asked = resolve(alloc, &context.scope, question, faults)?;
            let kind = kind_of(&asked);
            let branches = add_parts(alloc, context, table, kind, parts, next, faults)?;
            let other = add_other(alloc, context, table, otherwise, next, faults)?;
            Ok(decision(question_of(asked), branches, other))
        }
    }
}

/// Adds the parts of a decision, in the order of the text.
#[cycle(add)]
fn add_parts<'t>(
    alloc: Global,
    context: &Context<'_, '_, 't>,
    table: &mut NodeTable,
    question: Option<OperandSort>,
    parts: &'t [AnswerPart],
    next: Option<NodeId>,
    faults: &mut Faults<'t>,
) -> Result<Option<Vec<Branch>>, AllocError>
    ensures built { IfOk result (λ found. BuiltPiecesIf (table_of table.old) (table_of table.new)
        (option_map (λ list. list.items) found)
        (all_some (map (piece_in (context_of context.now) question) (map answer_part_value parts.now))) next) }
    ensures noted { OnOk result (Notes faults.old faults.new
        (flat_map (part_faults (context_of context.now) question) (map answer_part_value parts.now))) }
{
    let mut found = Some(Vec::new(alloc));
    for part in parts {
        let branch = add_part(alloc, context, table, question, part, next, faults)?;
        found = and_last(found, branch)?;
    }
    Ok(found)
}

#[cycle(add)]
fn add_part<'t>(
    alloc: Global,
    context: &Context<'_, '_, 't>,
    table: &mut NodeTable,
    question: Option<OperandSort>,
    part: &'t AnswerPart,
    next: Option<NodeId>,
    faults: &mut Faults<'t>,
) -> Result<Option<Branch>, AllocError>
    ensures built { IfOk result (λ found. BuiltPieceIf (table_of table.old) (table_of table.new) found
        (piece_in (context_of context.now) question (answer_part_value part.now)) next) }
    ensures noted { OnOk result (Notes faults.old faults.new
        (part_faults (context_of context.now) question (answer_part_value part.now))) }
{
    let answers = resolve_answers(alloc, context, question, &part.answers, faults)?;
    let place = add(alloc, context, table, &part.transition, next, faults)?;
    Ok(branch(answers, Way(place)))
}

/// Adds what stands behind `else`, where it stands.
#[cycle(add)]
fn add_other<'t>(
    alloc: Global,
    context: &Context<'_, '_, 't>,
    table: &mut NodeTable,
    otherwise: &'t Option<Transition>,
    next: Option<NodeId>,
    faults: &mut Faults<'t>,
) -> Result<Option<Way>, AllocError>
    ensures built { IfOk result (λ way. BuiltOtherIf (table_of table.old) (table_of table.new) way
        (other_in (context_of context.now) (else_of (option_map transition_value otherwise.now))) next) }
    ensures noted { OnOk result (Notes faults.old faults.new
        (other_faults (context_of context.now) (else_of (option_map transition_value otherwise.now)))) }
{
    match otherwise {
        None => Ok(None),
        Some(transition) => {
            let place = add(alloc, context, table, transition, next, faults)?;
            Ok(Some(Way(place)))
        }
    }
}

/// Adds what ends a transition, where something does.
fn add_ending<'t>(
    context: &Context<'_, '_, 't>,
    table: &mut NodeTable,
    ending: &'t Option<TerminatorStatement>,
    next: Option<NodeId>,
    faults: &mut Faults<'t>,
) -> Result<Option<NodeId>, AllocError>
    ensures built { IfOk result (λ place. BuiltIf (table_of table.old) (table_of table.new) place
        (ending_in (context_of context.now) (option_map ending_value ending.now)) next) }
    ensures noted { OnOk result (Notes faults.old faults.new
        (ending_faults (context_of context.now) (option_map ending_value ending.now))) }
{
    match ending {
        None => Ok(next),
        Some(ending) => add_terminator(context, table, ending, next, faults),
    }
}

fn add_terminator<'t>(
    context: &Context<'_, '_, 't>,
    table: &mut NodeTable,
    ending: &'t TerminatorStatement,
    next: Option<NodeId>,
    faults: &mut Faults<'t>,
) -> Result<Option<NodeId>, AllocError>
    ensures built { IfOk result (λ place. BuiltIf (table_of table.old) (table_of table.new) place
        (ending_in (context_of context.now) (Some (ending_value ending.now))) next) }
    ensures noted { OnOk result (Notes faults.old faults.new
        (ending_faults (context_of context.now) (Some (ending_value ending.now)))) }
{
    let statement = resolve_terminator(context, &ending.terminator, faults);
    table.place(context, &ending.label, statement, None)
}
