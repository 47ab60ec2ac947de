//! The places of a value at which something is wanted.

use crate::site::{Kind, Use, What};
use crate::sites::Sites;
use sdl_lex::Place;
use sdl_tree::{Chain, Expression, Name};
use std::alloc::AllocError;

/// Adds a value that is given for something.
pub fn add_value<'t>(
    sites: &mut Sites<'t>,
    value: &'t Expression,
    given: Use<'t>,
) -> Result<(), AllocError> {
    sites.add(first_place(value), What::Value(value, given))?;
    add_expression(sites, value, name_kind(given))
}

/// What a name alone has to stand for in a value that is given for this.
fn name_kind(given: Use<'_>) -> Kind {
    match given {
        Use::Destination => Kind::Destination,
        Use::Initial(_) | Use::OwnDuration | Use::Count => Kind::Constant,
        Use::Answer(_) => Kind::Answer,
        _ => Kind::Value,
    }
}

/// What a name has to stand for as a part of a value, where a name alone has to stand for this.
fn part_kind(kind: Kind) -> Kind {
    match kind {
        Kind::Constant | Kind::Answer => kind,
        _ => Kind::Value,
    }
}

/// Adds what stands in an expression, in which a name has to stand for this.
#[cycle(expression)]
pub fn add_expression<'t>(
    sites: &mut Sites<'t>,
    expression: &'t Expression,
    kind: Kind,
) -> Result<(), AllocError> {
    match expression {
        Expression::Number(_) | Expression::Keyword { .. } => Ok(()),
        Expression::Name(name) => sites.add_name(name, kind),
        Expression::Active { timer, values, .. } => {
            sites.add_name(timer, Kind::Timer)?;
            add_arguments(sites, timer, values, Kind::Timer)
        }
        Expression::Parenthesized { inner, .. } => add_expression(sites, inner, part_kind(kind)),
        Expression::Unary {
            operator,
            word,
            operand,
        } => {
            sites.add(word.place, What::Sign(*operator, operand))?;
            add_expression(sites, operand, part_kind(kind))
        }
        Expression::Chain(chain) => add_chain(sites, chain, part_kind(kind)),
    }
}

#[cycle(expression)]
fn add_chain<'t>(sites: &mut Sites<'t>, chain: &'t Chain, kind: Kind) -> Result<(), AllocError> {
    add_expression(sites, &chain.first, kind)?;
    let mut number = 0usize;
    for link in &chain.rest {
        sites.add(link.word.place, What::Operator(chain, number))?;
        add_expression(sites, &link.operand, kind)?;
        number = number.saturating_add(1);
    }
    Ok(())
}

/// Adds the values after the name of a signal, a timer or a process.
#[cycle(expression)]
pub fn add_arguments<'t>(
    sites: &mut Sites<'t>,
    name: &'t Name,
    values: &'t [Expression],
    kind: Kind,
) -> Result<(), AllocError> {
    sites.add(
        name.place,
        What::Applied {
            name,
            kind,
            values: values.len(),
        },
    )?;
    let mut number = 0usize;
    for value in values {
        let given = Use::Parameter {
            of: name,
            kind,
            number,
        };
        sites.add(first_place(value), What::Value(value, given))?;
        add_expression(sites, value, Kind::Value)?;
        number = number.saturating_add(1);
    }
    Ok(())
}

/// Where an expression begins.
#[cycle(place)]
fn first_place(expression: &Expression) -> Place {
    match expression {
        Expression::Number(number) => number.digits.place,
        Expression::Name(name) => name.place,
        Expression::Keyword { word, .. } | Expression::Active { word, .. } => word.place,
        Expression::Parenthesized { parenthesis, .. } => parenthesis.place,
        Expression::Unary { word, .. } => word.place,
        Expression::Chain(chain) => place_of_chain(chain),
    }
}

#[cycle(place)]
fn place_of_chain(chain: &Chain) -> Place {
    first_place(&chain.first)
}
