//! The sorts of expressions, as far as they are known.

use crate::advice::names::Names;
use build_expressions::{OperandSort, ValueEntry, result_of, unary_result_of};
use sdl_system::Sort;
use sdl_tree::{Chain, Expression, KeywordValue, Link};

/// The sort of an expression. None if something in it has none, or does not fit.
#[cycle(sort)]
pub fn sort_of(names: &Names<'_, '_>, expression: &Expression) -> Option<OperandSort> {
    match expression {
        Expression::Number(_) => Some(OperandSort::Free),
        Expression::Name(name) => {
            Some(OperandSort::of_sort(sort_of_name(names, name.text.as_str())?))
        }
        Expression::Keyword { value, .. } => Some(sort_of_keyword(*value)),
        Expression::Active { .. } => Some(OperandSort::Boolean),
        Expression::Parenthesized { inner, .. } => sort_of(names, inner),
        Expression::Unary {
            operator,
            operand,
            ..
        } => Some(unary_result_of(*operator, sort_of(names, operand)?)?.kind),
        Expression::Chain(chain) => sort_of_chain(names, chain),
    }
}

#[cycle(sort)]
fn sort_of_chain(names: &Names<'_, '_>, chain: &Chain) -> Option<OperandSort> {
    sort_of_links(names, sort_of(names, &chain.first)?, &chain.rest)
}

/// The sort of what some links of a chain join to an operand of this sort.
#[cycle(sort)]
fn sort_of_links(names: &Names<'_, '_>, first: OperandSort, links: &[Link]) -> Option<OperandSort> {
    let mut sort = first;
    for link in links {
        sort = result_of(link.operator, sort, sort_of(names, &link.operand)?)?.kind;
    }
    Some(sort)
}

/// The sorts of both sides of an operator in a chain: of what so many links join, and of the operand of the next one.
pub fn sides_of(
    names: &Names<'_, '_>,
    chain: &Chain,
    number: usize,
) -> Option<(OperandSort, OperandSort)> {
    let first = sort_of(names, &chain.first)?;
    let left = sort_of_links(names, first, chain.rest.get(..number)?)?;
    let right = sort_of(names, &chain.rest.get(number)?.operand)?;
    Some((left, right))
}

/// The sort of a variable, a parameter or a synonym.
pub fn sort_of_name(names: &Names<'_, '_>, name: &str) -> Option<Sort> {
    match names.value(name)?.entry {
        ValueEntry::Variable { sort, .. } | ValueEntry::Synonym { sort, .. } => sort,
    }
}

fn sort_of_keyword(value: KeywordValue) -> OperandSort {
    match value {
        KeywordValue::True | KeywordValue::False => OperandSort::Boolean,
        KeywordValue::Null
        | KeywordValue::SelfPid
        | KeywordValue::Parent
        | KeywordValue::Offspring
        | KeywordValue::Sender => OperandSort::Pid,
        KeywordValue::Now => OperandSort::Time,
    }
}

/// The predefined sort of a name.
pub fn sort_named(name: &str) -> Option<Sort> {
    match name {
        "Boolean" => Some(Sort::Boolean),
        "Integer" => Some(Sort::Integer),
        "Natural" => Some(Sort::Natural),
        "Pid" | "PId" => Some(Sort::Pid),
        "Time" => Some(Sort::Time),
        "Duration" => Some(Sort::Duration),
        _ => None,
    }
}

/// A value of a sort, with its article.
pub fn one_of(sort: Sort) -> &'static str {
    match sort {
        Sort::Boolean => "a Boolean",
        Sort::Integer => "an Integer",
        Sort::Natural => "a Natural",
        Sort::Pid => "a Pid",
        Sort::Time => "a Time",
        Sort::Duration => "a Duration",
    }
}

/// An operand of a sort, with its article.
pub fn operand_of(sort: OperandSort) -> &'static str {
    match sort {
        OperandSort::Free => "a number",
        OperandSort::Integer => "an Integer",
        OperandSort::Time => "a Time",
        OperandSort::Duration => "a Duration",
        OperandSort::Boolean => "a Boolean",
        OperandSort::Pid => "a Pid",
    }
}
