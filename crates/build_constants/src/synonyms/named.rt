//! The synonyms that an expression names.

ghost use Rattle.std.specs.Prelude.{◌≡◌, ◌++◌, [], ◌∷◌, map, MatchOption, OnOk};
ghost use Rattle.build_expressions.specs.Scope.{visible};
ghost use Rattle.build_names.specs.Names.{first_of};
ghost use Rattle.build_constants.specs.Named.{named_in, named_in_values, synonym_in};
ghost use Rattle.sdl_tree.specs.Tree.{exprs_of};
ghost use Rattle.sdl_tree.specs.Views.{chain_value, expr_value, name_value};

use build_expressions::ValueEntry;
use build_names::Outward;
use sdl_tree::{Chain, Expression, Name};
use std::alloc::AllocError;

/// Adds the numbers of the synonyms that the expression names, in the order of the text.
#[cycle(names)]
pub fn add_named(
    values: &Outward<'_, '_, ValueEntry>,
    expression: &Expression,
    numbers: &mut Vec<usize>,
) -> Result<(), AllocError>
    ensures { OnOk result (numbers.new.items ≡ numbers.old.items
        ++ named_in (visible values.now) (expr_value expression.now)) }
{
    match expression {
        Expression::Number(_) | Expression::Keyword { .. } => Ok(()),
        Expression::Name(name) => add_name(values, name, numbers),
        Expression::Active { values: asked, .. } => add_each(values, asked, numbers),
        Expression::Parenthesized { inner, .. } => add_named(values, inner, numbers),
        Expression::Unary { operand, .. } => add_named(values, operand, numbers),
        Expression::Chain(chain) => add_chain(values, chain, numbers),
    }
}

#[cycle(names)]
fn add_each(
    values: &Outward<'_, '_, ValueEntry>,
    expressions: &[Expression],
    numbers: &mut Vec<usize>,
) -> Result<(), AllocError>
    ensures { OnOk result (numbers.new.items
        ≡ numbers.old.items ++ named_in_values (visible values.now) (exprs_of (map expr_value expressions.now))) }
{
    for expression in expressions {
        add_named(values, expression, numbers)?;
    }
    Ok(())
}

#[cycle(names)]
fn add_chain(
    values: &Outward<'_, '_, ValueEntry>,
    chain: &Chain,
    numbers: &mut Vec<usize>,
) -> Result<(), AllocError>
    ensures { OnOk result (numbers.new.items ≡ numbers.old.items
        ++ named_in (visible values.now) (chain_value chain.now)) }
{
    add_named(values, &chain.first, numbers)?;
    for link in &chain.rest {
        add_named(values, &link.operand, numbers)?;
    }
    Ok(())
}

fn add_name(
    values: &Outward<'_, '_, ValueEntry>,
    name: &Name,
    numbers: &mut Vec<usize>,
) -> Result<(), AllocError>
    ensures { OnOk result (numbers.new.items
        ≡ numbers.old.items ++ synonym_in (first_of (visible values.now) (name_value name.now).text)) }
{
    match synonym_number(values.get(&name.text)) {
        Some(number) => {
            numbers.push(number)?;
            Ok(())
        }
        None => Ok(()),
    }
}

/// The number of the synonym that a name stands for, if it stands for one.
fn synonym_number(entry: Option<ValueEntry>) -> Option<usize>
    ensures { MatchOption result (synonym_in entry ≡ []) (λ number. synonym_in entry ≡ number ∷ []) }
{
    match entry {
        Some(ValueEntry::Synonym { number, .. }) => Some(number.0 as usize),
        _ => None,
    }
}
