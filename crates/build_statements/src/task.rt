//! Assignments (Z.102: task).

ghost use Rattle.std.specs.Prelude.{◌≡◌, flat_map, is_none, map, option_and_then, option_map, IfOk, OnOk};
ghost use Rattle.build_statements.specs.Contexts.{context_of};
ghost use Rattle.build_statements.specs.Faulty.{assignment_faults};
ghost use Rattle.build_statements.specs.Statements.{assigned, assigning_in, sort_of, target_in, target_of, task_in};
ghost use Rattle.build_names.specs.Faults.{Notes, fault_if};
ghost use Rattle.build_names.specs.declared.faults.fault.Rule.TheVariants.{Unknown};
ghost use Rattle.build_expressions.specs.Partial.{all_some, both};
ghost use Rattle.sdl_system.specs.Body.{task};
ghost use Rattle.sdl_system.specs.Table.{action_of, assigning};
ghost use Rattle.sdl_system.specs.Term.{term_of};
ghost use Rattle.sdl_tree.specs.Views.{assignment_value, name_value};

use crate::context::Context;
use crate::list::all_there;
use build_expressions::{ValueMeaning, resolve_for};
use build_names::{Faults, Rule, Token};
use sdl_system::{Expression, Sort, Statement, VariableId};
use sdl_tree::{Assignment, Name};
use std::alloc::{AllocError, Global};

/// A variable, with its sort where that is known.
#[derive(Clone, Copy)]
pub struct Target {
    pub number: VariableId,
    pub sort: Option<Sort>,
}

/// A task with its assignments. Noted are `Unknown` at the name of no variable, the faults of the values, and `Sort` at
/// the first token of a value that doesn't fit its variable.
pub fn resolve_task<'t>(
    alloc: Global,
    context: &Context<'_, '_, 't>,
    assignments: &'t [Assignment],
    faults: &mut Faults<'t>,
) -> Result<Option<Statement>, AllocError>
    ensures task { IfOk result (λ found. option_and_then action_of found
        ≡ task_in (context_of context.now) (map assignment_value assignments.now)) }
    ensures noted { OnOk result (Notes faults.old faults.new
        (flat_map (assignment_faults (context_of context.now)) (map assignment_value assignments.now))) }
{
    let list = resolve_assignments(alloc, context, assignments, faults)?;
    Ok(task(list))
}

fn task(list: Option<Vec<sdl_system::Assignment>>) -> Option<Statement>
    ensures { option_and_then action_of result
        ≡ option_map task (option_map (λ list. map assigning list.items) list) }
{
    match list {
        None => None,
        Some(list) => Some(Statement::Task(list)),
    }
}

fn resolve_assignments<'t>(
    alloc: Global,
    context: &Context<'_, '_, 't>,
    assignments: &'t [Assignment],
    faults: &mut Faults<'t>,
) -> Result<Option<Vec<sdl_system::Assignment>>, AllocError>
    ensures assignments { IfOk result (λ found. option_map (λ list. map assigning list.items) found
        ≡ all_some (map (assigning_in (context_of context.now)) (map assignment_value assignments.now))) }
    ensures noted { OnOk result (Notes faults.old faults.new
        (flat_map (assignment_faults (context_of context.now)) (map assignment_value assignments.now))) }
{
    let mut found = Vec::new(alloc);
    for assignment in assignments {
        found.push(resolve_assignment(alloc, context, assignment, faults)?)?;
    }
    all_there(alloc, found)
}

fn resolve_assignment<'t>(
    alloc: Global,
    context: &Context<'_, '_, 't>,
    assignment: &'t Assignment,
    faults: &mut Faults<'t>,
) -> Result<Option<sdl_system::Assignment>, AllocError>
    ensures assignment { IfOk result (λ found. option_map assigning found
        ≡ assigning_in (context_of context.now) (assignment_value assignment.now)) }
    ensures noted { OnOk result (Notes faults.old faults.new
        (assignment_faults (context_of context.now) (assignment_value assignment.now))) }
{
    let target = resolve_target(context, &assignment.variable, faults);
    let sort = sort_of(target);
    let value = resolve_for(alloc, &context.scope, &assignment.value, sort, faults)?;
    Ok(assigned(target, value))
}

/// The variable of this name. A name of none is noted.
fn resolve_target<'t>(
    context: &Context<'_, '_, 't>,
    name: &'t Name,
    faults: &mut Faults<'t>,
) -> Option<Target>
    ensures target { result ≡ target_in (context_of context.now) (name_value name.now) }
    ensures noted { Notes faults.old faults.new
        (fault_if (is_none (target_in (context_of context.now) (name_value name.now))) Unknown (name_value name.now)) }
{
    let target = target_of(context.scope.value(&name.text));
    if target.is_none() {
        faults.note(Rule::Unknown, Token::of_name(name));
    }
    target
}

fn target_of(meaning: Option<ValueMeaning>) -> Option<Target>
    ensures { result ≡ target_of meaning }
{
    match meaning {
        Some(ValueMeaning::Variable { number, sort }) => Some(Target { number, sort }),
        Some(ValueMeaning::Synonym { .. }) | None => None,
    }
}

fn sort_of(target: Option<Target>) -> Option<Sort>
    ensures { result ≡ sort_of target }
{
    target?.sort
}

fn assigned(target: Option<Target>, value: Option<Expression>) -> Option<sdl_system::Assignment>
    ensures { option_map assigning result ≡ both assigned target (option_map term_of value) }
{
    match (target, value) {
        (Some(target), Some(value)) => Some(sdl_system::Assignment {
            variable: target.number,
            value,
        }),
        _ => None,
    }
}
