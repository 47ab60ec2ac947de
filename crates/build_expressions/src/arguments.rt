//! Values in a list, each for a place of a sort.

ghost use Rattle.std.specs.Prelude.{◌≡◌, ◌&&◌, ◌||◌, IfOk, None, Some, map, option_map};
ghost use Rattle.build_names.specs.Faults.{Notes, token_word};
ghost use Rattle.build_expressions.specs.Misused.{fault_of_place, places_faults};
ghost use Rattle.build_expressions.specs.Partial.{and_last};
ghost use Rattle.build_expressions.specs.Resolved.{argument_of, typed_of};
ghost use Rattle.build_expressions.specs.Typing.{any_refused, are_taken, argument_terms, is_refused_in, is_taken, taken_in, term_in};
ghost use Rattle.sdl_system.specs.Term.{term_of};
ghost use Rattle.sdl_tree.specs.Views.{name_value};

use crate::typed::Typed;
use build_names::{Faults, Rule, Token};
use sdl_system::{Expression, Sort};
use sdl_tree::Name;
use std::alloc::{AllocError, Global};

/// A value, with the token with which it begins. None where it has no kind.
#[derive(Drop)]
pub struct Argument<'t> {
    pub token: Token<'t>,
    pub typed: Option<Typed>,
}

/// Whether there are as many values as places, and each fits. What doesn't is noted: another number of values at the
/// name before them, a value that doesn't fit at its first token.
pub fn place_all<'t>(
    name: &'t Name,
    places: &[Option<Sort>],
    arguments: &[Argument<'t>],
    faults: &mut Faults<'t>,
) -> bool
    ensures taken { result ≡ are_taken places.now (map argument_of arguments.now) }
    ensures noted { Notes faults.old faults.new
        (places_faults (name_value name.now) places.now (map argument_of arguments.now)) }
{
    if arguments.len() != places.len() {
        faults.note(Rule::Sort, Token::of_name(name));
        return false;
    }
    let mut all = true;
    for (index, argument) in arguments.iter().enumerate() {
        let is_taken = place(places[index], argument.token, &argument.typed, faults);
        all = both(all, is_taken);
    }
    all
}

fn both(first: bool, second: bool) -> bool
    ensures { result ≡ (first && second) }
{
    first && second
}

/// Whether it is a value that fits the place. One that doesn't fit is noted.
fn place<'t>(
    place: Option<Sort>,
    token: Token<'t>,
    typed: &Option<Typed>,
    faults: &mut Faults<'t>,
) -> bool
    ensures taken { result ≡ is_taken place (option_map typed_of typed.now) }
    ensures noted { Notes faults.old faults.new
        (fault_of_place place (token_word token.entry) (option_map typed_of typed.now)) }
{
    match (place, typed) {
        (_, None) => false,
        (None, Some(_)) => true,
        (Some(sort), Some(typed)) => {
            let fits = typed.kind.fits(sort);
            if !fits {
                faults.note(Rule::Sort, token);
            }
            fits
        }
    }
}

/// The value where it fits the place. One that doesn't fit is noted.
pub fn taken<'t>(
    sort: Option<Sort>,
    token: Token<'t>,
    typed: Option<Typed>,
    faults: &mut Faults<'t>,
) -> Option<Typed>
    ensures taken { option_map typed_of result ≡ taken_in sort (option_map typed_of typed) }
    ensures noted { Notes faults.old faults.new
        (fault_of_place sort (token_word token.entry) (option_map typed_of typed)) }
{
    if place(sort, token, &typed, faults) {
        typed
    } else {
        None
    }
}

/// Whether a synonym in one of the values is refused.
pub fn any_refused(arguments: &[Argument<'_>]) -> bool
    ensures { result ≡ any_refused (map argument_of arguments.now) }
{
    let mut any = false;
    for argument in arguments {
        any = either(any, is_refused(&argument.typed));
    }
    any
}

fn either(first: bool, second: bool) -> bool
    ensures { result ≡ (first || second) }
{
    first || second
}

fn is_refused(typed: &Option<Typed>) -> bool
    ensures { result ≡ is_refused_in (option_map typed_of typed.now) }
{
    match typed {
        None => false,
        Some(typed) => typed.is_refused,
    }
}

/// The values, where each is there.
pub fn expressions(
    alloc: Global,
    arguments: Vec<Argument<'_>>,
) -> Result<Option<Vec<Expression>>, AllocError>
    ensures { IfOk result (λ found. option_map (λ list. map term_of list.items) found
        ≡ argument_terms (map argument_of arguments.entry.items)) }
{
    let mut found = Some(Vec::new(alloc));
    for argument in arguments {
        found = and_last(found, expression(argument.typed))?;
    }
    Ok(found)
}

/// The resolved expression, where there is one.
pub fn expression(typed: Option<Typed>) -> Option<Expression>
    ensures { option_map term_of result ≡ term_in (option_map typed_of typed) }
{
    typed?.expression
}

fn and_last(
    list: Option<Vec<Expression>>,
    last: Option<Expression>,
) -> Result<Option<Vec<Expression>>, AllocError>
    ensures { IfOk result (λ found. option_map (λ list. map term_of list.items) found
        ≡ and_last (option_map (λ list. map term_of list.items) list) (option_map term_of last)) }
{
    match (list, last) {
        (Some(mut list), Some(last)) => {
            list.push(last)?;
            Ok(Some(list))
        }
        _ => Ok(None),
    }
}
