//! The answers of a decision.

ghost use Rattle.std.specs.Prelude.{◌≤◌, option_map};
ghost use Rattle.sdl_tree.specs.Views.{answer_value, expr_value};
ghost use Rattle.sdl_parse.specs.Answers as spec;
ghost use Rattle.parse_expressions.specs.Reads.{Reads};

use crate::behaviour::optional::taken;
use crate::behaviour::place::Inside;
use parse_expressions::expressions::{expression, operator_at};
use parse_expressions::{Cursor, Fault, Production};
use sdl_tree::{Answer, Expression, Mark};
use std::alloc::Global;

/// The looseness of the comparisons.
const COMPARISON: usize = 4;

impl Production<Answer> for Inside {
    ghost use Rattle.sdl_tree.specs.Tree as tree;
    ghost use Rattle.sdl_tree.specs.Views.{answer_value};
    ghost use Rattle.sdl_parse.specs.Answers.{answer};

    ghost Node = { tree.Answer };

    ghost value = { answer_value };

    ghost reads = { λ at. answer at.depth };
}

/// `answer = expr [":" expr] | ("=" | "/=" | "<" | "<=" | ">" | ">=") expr`
#[tactic(auto, unfolding(crate::specs::Answers::answer))]
pub fn answer(alloc: Global, cursor: &mut Cursor<'_, '_>, at: Inside) -> Result<Answer, Fault>
    requires { at.depth ≤ 64 }
    ensures { Reads answer_value (spec.answer at.depth cursor.old) result cursor.new }
{
    let Some(operator) = operator_at(cursor, COMPARISON) else {
        return value_answer(alloc, cursor, at.depth);
    };
    let word = cursor.expect(operator.mark())?;
    let value = expression(alloc, cursor, at.depth)?;
    Ok(Answer::Compared {
        operator,
        word,
        value,
    })
}

/// `expr [":" expr]`
#[tactic(auto, unfolding(crate::specs::Answers::value_answer))]
fn value_answer(alloc: Global, cursor: &mut Cursor<'_, '_>, depth: usize) -> Result<Answer, Fault>
    requires { depth ≤ 64 }
    ensures { Reads answer_value (spec.value_answer depth cursor.old) result cursor.new }
{
    let first = expression(alloc, cursor, depth)?;
    match range_end(alloc, cursor, depth)? {
        Some(last) => Ok(Answer::Range { first, last }),
        None => Ok(Answer::Value(first)),
    }
}

/// `[":" expr]`
#[tactic(auto, unfolding(crate::specs::Answers::range_end))]
fn range_end(
    alloc: Global,
    cursor: &mut Cursor<'_, '_>,
    depth: usize,
) -> Result<Option<Expression>, Fault>
    requires { depth ≤ 64 }
    ensures { Reads (option_map expr_value) (spec.range_end depth cursor.old) result cursor.new }
{
    match taken(cursor, Mark::Colon) {
        None => Ok(None),
        Some(_) => Ok(Some(expression(alloc, cursor, depth)?)),
    }
}
