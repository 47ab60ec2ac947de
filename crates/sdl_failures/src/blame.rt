//! The word of an expression that fails.

ghost use Rattle.std.specs.Prelude.{◌≡◌, ◌≤◌, ◌^◌, IfSome, IsErr, None, false, string_bytes, true};
ghost use Rattle.sdl_system.specs.Operation.{applied, applied_to_one};
ghost use Rattle.sdl_system.specs.Sort.{as_sort};
ghost use Rattle.sdl_failures.specs.Reasons.{IsSo};

use crate::operands::Scene;
use crate::place::place_of;
use crate::reason::{Blame, Reason};
use port_model::Value;
use sdl_lex::Place;
use sdl_system::{
    Chain, Expression, Link, Operation, Sort, UnaryOperation, Variable, VariableId, in_sort,
};
use sdl_tree::{Chain as WrittenChain, Expression as Written, Link as WrittenLink};

/// The word of an expression that has no value, and why. It is evaluated as the text has it. None: nothing of it fails.
#[cycle(blame)]
pub fn blame<'t>(scene: &Scene<'_>, written: &'t Written, meant: &Expression) -> Option<Blame<'t>>
    ensures { IfSome result (λ found. IsSo scene.now.process.now scene.now.known.now.store found.reason) }
{
    match (written, meant) {
        (Written::Parenthesized { inner, .. }, meant) => blame(scene, inner, meant),
        (Written::Name(name), Expression::Variable(variable)) => {
            blame_variable(scene, name.place, name.text.as_str(), *variable)
        }
        (Written::Keyword { word, .. }, Expression::Now) => blame_now(scene, word.place),
        (
            Written::Active { values, .. },
            Expression::Active {
                timer,
                values: meant,
            },
        ) => { blame_values(scene, values, meant, scene.sorts_of(*timer)) }
        (
            Written::Unary { word, operand, .. },
            Expression::Unary {
                operation,
                operand: meant,
            },
        ) => blame_unary(scene, word.place, operand, *operation, meant),
        (Written::Chain(written), Expression::Chain(meant)) => blame_chain(scene, written, meant),
        _ => None,
    }
}

/// A variable that has no value, which the text names so.
fn blame_variable<'t>(
    scene: &Scene<'_>,
    place: Place,
    name: &'t str,
    variable: VariableId,
) -> Option<Blame<'t>>
    ensures { IfSome result (λ found. IsSo scene.now.process.now scene.now.known.now.store found.reason) }
{
    let named = scene.process.variables.get(variable.0 as usize)?;
    if !has_name(named, name) {
        return None;
    }
    let store = scene.known.store();
    match store.variables.get(variable) {
        Some(_) => None,
        None => Some(Blame {
            place,
            reason: Reason::NoValue(name),
        }),
    }
}

fn has_name(variable: &Variable, name: &str) -> bool
    ensures { result ≡ true → string_bytes variable.now.name ≡ name.now }
{
    variable.name.as_str() == name
}

/// A time past 64 bits is no value.
fn blame_now<'t>(scene: &Scene<'_>, place: Place) -> Option<Blame<'t>>
    ensures { IfSome result (λ found. IsSo scene.now.process.now scene.now.known.now.store found.reason) }
{
    let now = scene.now().get();
    if is_number(now) {
        return None;
    }
    Some(Blame {
        place,
        reason: Reason::Time(now),
    })
}

/// Whether a time is a number of 64 bits.
fn is_number(now: u64) -> bool
    ensures { result ≡ false → 2 ^ 63 ≤ now }
{
    i64::try_from(now).is_ok()
}

#[cycle(blame)]
fn blame_unary<'t>(
    scene: &Scene<'_>,
    place: Place,
    written: &'t Written,
    operation: UnaryOperation,
    meant: &Expression,
) -> Option<Blame<'t>>
    ensures { IfSome result (λ found. IsSo scene.now.process.now scene.now.known.now.store found.reason) }
{
    let Ok(operand) = scene.value(meant) else {
        return blame(scene, written, meant);
    };
    if !has_none(operation, operand) {
        return None;
    }
    Some(Blame {
        place,
        reason: Reason::Negation(operand),
    })
}

/// Whether an operation on one value has none.
fn has_none(operation: UnaryOperation, operand: Value) -> bool
    ensures { result ≡ true → IsErr (applied_to_one operation operand) }
{
    operation.apply(operand).is_err()
}

#[cycle(blame)]
fn blame_chain<'t>(scene: &Scene<'_>, written: &'t WrittenChain, meant: &Chain) -> Option<Blame<'t>>
    ensures { IfSome result (λ found. IsSo scene.now.process.now scene.now.known.now.store found.reason) }
{
    let Ok(first) = scene.value(&meant.first) else {
        return blame(scene, &written.first, &meant.first);
    };
    let mut left = first;
    for index in 0..written.rest.len().min(meant.rest.len()) {
        match link_value(scene, left, &meant.rest[index]) {
            Some(value) => left = value,
            None => return blame_link(scene, left, &written.rest[index], &meant.rest[index]),
        }
    }
    None
}

/// The value of a chain up to a link, by that of what stands before it.
fn link_value(scene: &Scene<'_>, left: Value, link: &Link) -> Option<Value> {
    let right = scene.value(&link.operand).ok()?;
    link.operation.apply(left, right).ok()
}

#[cycle(blame)]
fn blame_link<'t>(
    scene: &Scene<'_>,
    left: Value,
    written: &'t WrittenLink,
    meant: &Link,
) -> Option<Blame<'t>>
    ensures { IfSome result (λ found. IsSo scene.now.process.now scene.now.known.now.store found.reason) }
{
    let Ok(right) = scene.value(&meant.operand) else {
        return blame(scene, &written.operand, &meant.operand);
    };
    if !have_none(meant.operation, left, right) {
        return None;
    }
    let Operation::Arithmetic(operation, _) = meant.operation else {
        return None;
    };
    Some(Blame {
        place: written.word.place,
        reason: Reason::Calculation {
            left,
            operation,
            right,
        },
    })
}

/// Whether an operation on two values has none.
fn have_none(operation: Operation, left: Value, right: Value) -> bool
    ensures { result ≡ true → IsErr (applied operation left right) }
{
    operation.apply(left, right).is_err()
}

/// The word of a list of expressions that fails, from left to right, each at its place of a sort.
#[cycle(blame)]
pub fn blame_values<'t>(
    scene: &Scene<'_>,
    written: &'t [Written],
    meant: &[Expression],
    sorts: &[Sort],
) -> Option<Blame<'t>>
    ensures { IfSome result (λ found. IsSo scene.now.process.now scene.now.known.now.store found.reason) }
{
    for index in 0..written.len().min(meant.len()) {
        let sort = sorts.get(index).copied();
        let found = blame_at(scene, &written[index], &meant[index], sort, None);
        if found.is_some() {
            return found;
        }
    }
    None
}

/// The word of an expression that fails at a place of a sort: of a variable with this name, or of a parameter.
#[cycle(blame)]
pub fn blame_at<'t>(
    scene: &Scene<'_>,
    written: &'t Written,
    meant: &Expression,
    sort: Option<Sort>,
    variable: Option<&'t str>,
) -> Option<Blame<'t>>
    ensures { IfSome result (λ found. IsSo scene.now.process.now scene.now.known.now.store found.reason) }
{
    let Ok(value) = scene.value(meant) else {
        return blame(scene, written, meant);
    };
    let sort = sort?;
    if !is_misfit(value, sort) {
        return None;
    }
    Some(Blame {
        place: place_of(written),
        reason: Reason::NotNatural { value, variable },
    })
}

/// Whether a value is none of a sort.
fn is_misfit(value: Value, sort: Sort) -> bool
    ensures { result ≡ true → as_sort sort value ≡ None }
{
    in_sort(value, sort).is_none()
}
