//! Resolved expressions with their kinds.

ghost use Rattle.std.specs.Prelude.{◌≡◌, Some, IfOk, option_map};
ghost use Rattle.sdl_system.specs.Term.{term_of, unary};

use crate::context::Context;
use crate::operand_sort::OperandSort;
use crate::operator::TypedUnaryOperation;
use crate::scope::{Constant, ValueMeaning};
use port_model::{Pid, Value};
use sdl_system::{Expression, PidExpression, Sort, UnaryOperation};
use sdl_tree::KeywordValue;
use std::alloc::{AllocError, Global};

/// An expression with its names resolved, and its kind.
#[derive(Drop)]
pub struct Typed {
    pub kind: OperandSort,
    /// None where a synonym in it has no value or is refused, which is told where the synonym is defined.
    pub expression: Option<Expression>,
    /// Whether a synonym in it is refused.
    pub is_refused: bool,
}

impl Typed {
    ghost use Rattle.build_expressions.specs.Resolved.{typed_of};
    ghost use Rattle.build_expressions.specs.Typing.{name_typed, of_synonym, plain, with_operation, word_typed};

    /// An expression of this kind that names no synonym.
    pub(crate) fn plain(kind: OperandSort, expression: Expression) -> Self
        ensures { typed_of result ≡ plain kind (term_of expression) }
    {
        Typed {
            kind,
            expression: Some(expression),
            is_refused: false,
        }
    }

    /// Makes the typed expression of a name with this meaning. None if it may not stand there, or its sort is unknown.
    pub(crate) fn of_name(context: Context, meaning: ValueMeaning) -> Option<Self>
        ensures { option_map typed_of result ≡ name_typed context (Some meaning) }
    {
        match meaning {
            ValueMeaning::Variable { number, sort } => {
                if context.allows_instance() {
                    Some(Typed::plain(OperandSort::of_sort(sort?), Expression::Variable(number)))
                } else {
                    None
                }
            }
            ValueMeaning::Synonym { sort, value } => Some(Typed::of_synonym(value, sort?)),
        }
    }

    fn of_synonym(value: Constant, sort: Sort) -> Self
        ensures { typed_of result ≡ of_synonym value sort }
    {
        Typed {
            kind: OperandSort::of_sort(sort),
            expression: match value {
                Constant::Value(value) => Some(Expression::Value(value)),
                Constant::NoValue | Constant::Refused => None,
            },
            is_refused: matches!(value, Constant::Refused),
        }
    }

    /// Makes the typed expression of a keyword.
    pub(crate) fn of_word(value: KeywordValue) -> Self
        ensures { typed_of result ≡ word_typed value }
    {
        match value {
            KeywordValue::True => {
                Typed::plain(OperandSort::Boolean, Expression::Value(Value::Bool(true)))
            }
            KeywordValue::False => {
                Typed::plain(OperandSort::Boolean, Expression::Value(Value::Bool(false)))
            }
            KeywordValue::Null => Typed::plain(
                OperandSort::Pid,
                Expression::Value(Value::Pid(Pid::Null)),
            ),
            KeywordValue::Now => Typed::plain(OperandSort::Time, Expression::Now),
            KeywordValue::SelfPid => {
                Typed::plain(OperandSort::Pid, Expression::Pid(PidExpression::SelfPid))
            }
            KeywordValue::Parent => {
                Typed::plain(OperandSort::Pid, Expression::Pid(PidExpression::Parent))
            }
            KeywordValue::Offspring => {
                Typed::plain(OperandSort::Pid, Expression::Pid(PidExpression::Offspring))
            }
            KeywordValue::Sender => {
                Typed::plain(OperandSort::Pid, Expression::Pid(PidExpression::Sender))
            }
        }
    }

    /// The operation on this operand.
    pub(crate) fn with(
        self,
        alloc: Global,
        operation: TypedUnaryOperation,
    ) -> Result<Self, AllocError>
        ensures { IfOk result (λ typed. typed_of typed ≡ with_operation (typed_of self) operation) }
    {
        Ok(Typed {
            kind: operation.kind,
            expression: unary(alloc, operation.operation, self.expression)?,
            is_refused: self.is_refused,
        })
    }
}

fn unary(
    alloc: Global,
    operation: UnaryOperation,
    operand: Option<Expression>,
) -> Result<Option<Expression>, AllocError>
    ensures { IfOk result (λ found. option_map term_of found
        ≡ option_map (unary operation) (option_map term_of operand)) }
{
    match operand {
        None => Ok(None),
        Some(operand) => Ok(Some(Expression::Unary {
            operation,
            operand: Box::new(alloc, operand)?,
        })),
    }
}
