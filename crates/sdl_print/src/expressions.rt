//! Expressions.

ghost use Rattle.std.specs.Prelude.{OnOk, map};
ghost use Rattle.sdl_tree.specs.Canonical.{expr_words, values_words, applied_words};
ghost use Rattle.sdl_tree.specs.Erased.{erased_expr, erased_exprs, erased_applied};
ghost use Rattle.sdl_tree.specs.Tree as tree;
ghost use Rattle.sdl_tree.specs.Views.{expr_value, chain_value, applied_value};
ghost use Rattle.sdl_print.specs.Form.{written_as};
ghost use Rattle.sdl_print.specs.Wrote.{Wrote};

use crate::canonical::{Canonical, in_parentheses};
use crate::text::Text;
use sdl_tree::{Applied, Chain, Expression, Mark};
use std::alloc::AllocError;

/// `expr`
impl Canonical for Expression {
    ghost form = { written_as expr_value erased_expr expr_words };

    fn write(&self, text: &mut Text) -> Result<(), AllocError> {
        expression(text, self)
    }
}

#[cycle(expression)]
fn expression(text: &mut Text, expression: &Expression) -> Result<(), AllocError>
    ensures { OnOk result (Wrote text.old text.new (expr_words (erased_expr (expr_value expression.now)))) }
{
    match expression {
        Expression::Number(number) => number.write(text),
        Expression::Name(name) => name.write(text),
        Expression::Keyword { value, .. } => text.mark(value.mark()),
        Expression::Active {
            timer,
            values: listed,
            ..
        } => {
            text.mark(Mark::Active)?;
            text.mark(Mark::Open)?;
            timer.write(text)?;
            values(text, listed)?;
            text.mark(Mark::Close)
        }
        Expression::Parenthesized { inner, .. } => {
            text.mark(Mark::Open)?;
            self::expression(text, inner)?;
            text.mark(Mark::Close)
        }
        Expression::Unary {
            operator,
            operand,
            ..
        } => {
            text.mark(operator.mark())?;
            self::expression(text, operand)
        }
        Expression::Chain(links) => chain(text, links),
    }
}

/// The operands of a chain with the operators between them.
#[cycle(expression)]
fn chain(text: &mut Text, chain: &Chain) -> Result<(), AllocError>
    ensures { OnOk result (Wrote text.old text.new (expr_words (erased_expr (chain_value chain.now)))) }
{
    expression(text, &chain.first)?;
    for link in &chain.rest {
        text.mark(link.operator.mark())?;
        expression(text, &link.operand)?;
    }
    Ok(())
}

/// The values of a timer in parentheses, and nothing where there are none.
#[cycle(expression)]
fn values(text: &mut Text, values: &[Expression]) -> Result<(), AllocError>
    ensures { OnOk result (Wrote text.old text.new
        (values_words (erased_exprs (tree.exprs_of (map expr_value values.now))))) }
{
    match values {
        [] => Ok(()),
        [first, rest @ ..] => {
            text.mark(Mark::Open)?;
            expression(text, first)?;
            for value in rest {
                text.mark(Mark::Comma)?;
                expression(text, value)?;
            }
            text.mark(Mark::Close)
        }
    }
}

/// `NAME ["(" expr {"," expr} ")"]`: a signal that is sent, a timer, or a process that is created.
impl Canonical for Applied {
    ghost form = { written_as applied_value erased_applied applied_words };

    fn write(&self, text: &mut Text) -> Result<(), AllocError> {
        self.name.write(text)?;
        in_parentheses(text, &self.values)
    }
}
