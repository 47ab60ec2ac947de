//! The numbers of instances of a process.

ghost use Rattle.std.specs.Prelude.{◌≡◌, ◌||◌, Some, option_map, IfOk, OnOk};
ghost use Rattle.build_constants.specs.Counts.{accepted, allows_none, are_misfit, counts_faults, counts_in, exceeds, is_above, is_negative, maximum_in, number_part, part_faults, part_in, with_maximum, with_parts};
ghost use Rattle.build_names.specs.Faults.{Notes, fault_if, mark_word};
ghost use Rattle.build_names.specs.declared.faults.fault.Rule.TheVariants.{BadCount};
ghost use Rattle.build_expressions.specs.Scope.{scope_of};
ghost use Rattle.sdl_tree.specs.Views.{bound_value, counts_value, expr_value};
ghost use Rattle.sdl_tree.specs.declared.mark.Mark.TheVariants as mark;

use build_expressions::{Constant, Scope, constant};
use build_names::{Faults, Rule, Token};
use sdl_system::{Sort, number_of};
use sdl_tree::{Bound, Counts, Expression, Mark, Spelling};
use std::alloc::{AllocError, Global};

/// How many instances of a process there are at the start, and how many there may be at most; None: any number.
#[derive(Clone, Copy, PartialEq, Eq)]
pub struct InstanceCounts {
    pub initial: i64,
    pub maximum: Option<i64>,
}

/// The outcome of a part of the counts.
#[derive(Clone, Copy)]
enum Part {
    LeftOut,
    /// A rule is broken in it, or it rests on a synonym in which one is.
    Refused,
    Number(i64),
}

/// The numbers of instances that stand behind the name of a process, as `(1, 3)`: an initial number i and a maximum m.
/// Without an initial number it is 1, without a maximum there is no bound. None where a rule is broken in them.
///
/// Noted are the faults of each part as a constant of sort Integer, so `Sort` and `BadCount` at its first token; and
/// `BadCount` at the parenthesis unless `0 <= i`, `1 <= m` and `i <= m`, as far as they have numbers.
pub fn instance_counts<'t>(
    alloc: Global,
    scope: &Scope<'_, '_, 't>,
    counts: &'t Option<Counts>,
    faults: &mut Faults<'t>,
) -> Result<Option<InstanceCounts>, AllocError>
    ensures counts { IfOk result (λ found. found ≡ counts_in (scope_of scope.now)
        (option_map counts_value counts.now)) }
    ensures noted { OnOk result (Notes faults.old faults.new
        (counts_faults (scope_of scope.now) (option_map counts_value counts.now))) }
{
    match counts {
        None => Ok(Some(InstanceCounts {
            initial: 1,
            maximum: None,
        })),
        Some(counts) => stated(alloc, scope, counts, faults),
    }
}

fn stated<'t>(
    alloc: Global,
    scope: &Scope<'_, '_, 't>,
    counts: &'t Counts,
    faults: &mut Faults<'t>,
) -> Result<Option<InstanceCounts>, AllocError>
    ensures counts { IfOk result (λ found. found ≡ counts_in (scope_of scope.now) (Some (counts_value counts.now))) }
    ensures noted { OnOk result (Notes faults.old faults.new
        (counts_faults (scope_of scope.now) (Some (counts_value counts.now)))) }
{
    let initial = read_part(alloc, scope, initial_in(&counts.initial), faults)?;
    let maximum = read_part(alloc, scope, maximum_in(&counts.bound), faults)?;
    Ok(accepted(initial, maximum, counts.parenthesis, faults))
}

fn read_part<'t>(
    alloc: Global,
    scope: &Scope<'_, '_, 't>,
    expression: Option<&'t Expression>,
    faults: &mut Faults<'t>,
) -> Result<Part, AllocError>
    ensures part { IfOk result (λ part. part
        ≡ part_in (scope_of scope.now) (option_map (λ e. expr_value e.now) expression.entry)) }
    ensures noted { OnOk result (Notes faults.old faults.new
        (part_faults (scope_of scope.now) (option_map (λ e. expr_value e.now) expression.entry))) }
{
    match expression {
        None => Ok(Part::LeftOut),
        Some(expression) => {
            let constant = constant(alloc, scope, expression, Some(Sort::Integer), faults)?;
            Ok(number_part(constant))
        }
    }
}

fn number_part(constant: Constant) -> Part
    ensures { result ≡ number_part constant }
{
    match constant {
        Constant::Value(value) => Part::Number(number_of(value)),
        Constant::NoValue | Constant::Refused => Part::Refused,
    }
}

/// The part before the comma.
fn initial_in(initial: &Option<Expression>) -> Option<&Expression>
    ensures { option_map (λ e. expr_value e.now) result ≡ option_map expr_value initial.now }
{
    initial.as_ref()
}

/// The part behind the comma.
fn maximum_in(bound: &Option<Bound>) -> Option<&Expression>
    ensures { option_map (λ e. expr_value e.now) result ≡ maximum_in (option_map bound_value bound.now) }
{
    match bound {
        None => None,
        Some(bound) => bound.maximum.as_ref(),
    }
}

/// The counts of these parts, unless a condition on their numbers is broken, which is noted.
fn accepted<'t>(
    initial: Part,
    maximum: Part,
    parenthesis: Spelling,
    faults: &mut Faults<'t>,
) -> Option<InstanceCounts>
    ensures counts { result ≡ accepted initial maximum }
    ensures noted { Notes faults.old faults.new
        (fault_if (are_misfit initial maximum) BadCount (mark_word mark.Open parenthesis)) }
{
    if are_misfit(initial, maximum) {
        faults.note(Rule::BadCount, Token::of_mark(Mark::Open, parenthesis));
        return None;
    }
    with_parts(initial, maximum)
}

fn are_misfit(initial: Part, maximum: Part) -> bool
    ensures { result ≡ are_misfit initial maximum }
{
    is_negative(initial) || allows_none(maximum) || exceeds(initial, maximum)
}

fn is_negative(initial: Part) -> bool
    ensures { result ≡ is_negative initial }
{
    match initial {
        Part::Number(initial) => initial < 0,
        Part::LeftOut | Part::Refused => false,
    }
}

fn allows_none(maximum: Part) -> bool
    ensures { result ≡ allows_none maximum }
{
    match maximum {
        Part::Number(maximum) => maximum < 1,
        Part::LeftOut | Part::Refused => false,
    }
}

fn exceeds(initial: Part, maximum: Part) -> bool
    ensures { result ≡ exceeds initial maximum }
{
    match initial {
        Part::Number(initial) => is_above(initial, maximum),
        Part::LeftOut | Part::Refused => false,
    }
}

fn is_above(initial: i64, maximum: Part) -> bool
    ensures { result ≡ is_above initial maximum }
{
    match maximum {
        Part::Number(maximum) => initial > maximum,
        Part::LeftOut | Part::Refused => false,
    }
}

fn with_parts(initial: Part, maximum: Part) -> Option<InstanceCounts>
    ensures { result ≡ with_parts initial maximum }
{
    match initial {
        Part::LeftOut => with_maximum(1, maximum),
        Part::Number(initial) => with_maximum(initial, maximum),
        Part::Refused => None,
    }
}

fn with_maximum(initial: i64, maximum: Part) -> Option<InstanceCounts>
    ensures { result ≡ with_maximum initial maximum }
{
    let maximum = match maximum {
        Part::LeftOut => None,
        Part::Number(maximum) => Some(maximum),
        Part::Refused => return None,
    };
    Some(InstanceCounts { initial, maximum })
}
