//! The operations that operators stand for, by the sorts of their operands.

ghost use Rattle.std.specs.Prelude.{◌≡◌};
ghost use Rattle.build_expressions.specs.OperandSorts as kinds;

use crate::operand_sort::OperandSort;
use sdl_system::{Arithmetic, Comparison, Logic, NumberSort, Operation};
use sdl_tree::{Operator, UnaryOperator};

/// An operation on two values, and the sort of what it gives.
#[derive(Clone, Copy, PartialEq, Eq)]
pub struct TypedOperation {
    pub operation: Operation,
    pub kind: OperandSort,
}

/// An operation on one value, and the sort of what it gives.
#[derive(Clone, Copy, PartialEq, Eq)]
pub struct TypedUnaryOperation {
    pub operation: sdl_system::UnaryOperation,
    pub kind: OperandSort,
}

/// The operation of an operator between operands of these sorts. None where it is no operation (Z.104: the operators of
/// the predefined sorts).
pub fn result_of(
    operator: Operator,
    left: OperandSort,
    right: OperandSort,
) -> Option<TypedOperation>
    ensures { result ≡ kinds.result_of operator left right }
{
    match operator {
        Operator::Implies => joined(Logic::Implies, left, right),
        Operator::Or => joined(Logic::Or, left, right),
        Operator::Xor => joined(Logic::Xor, left, right),
        Operator::And => joined(Logic::And, left, right),
        Operator::Equal => compared(Comparison::Equal, left, right),
        Operator::NotEqual => compared(Comparison::NotEqual, left, right),
        Operator::Less => ordered(Comparison::Less, left, right),
        Operator::LessOrEqual => ordered(Comparison::LessOrEqual, left, right),
        Operator::Greater => ordered(Comparison::Greater, left, right),
        Operator::GreaterOrEqual => ordered(Comparison::GreaterOrEqual, left, right),
        Operator::Plus => added(left, right),
        Operator::Minus => subtracted(left, right),
        Operator::Times => scaled(Arithmetic::Times, left, right),
        Operator::Divide => scaled(Arithmetic::Divide, left, right),
        Operator::Mod => scaled(Arithmetic::Mod, left, right),
        Operator::Rem => scaled(Arithmetic::Rem, left, right),
    }
}

/// The operation of an operator before an operand of this sort. None where it is no operation.
pub fn unary_result_of(operator: UnaryOperator, operand: OperandSort) -> Option<TypedUnaryOperation>
    ensures { result ≡ kinds.unary_result_of operator operand }
{
    let operation = match (operator, operand) {
        (UnaryOperator::Minus, OperandSort::Free | OperandSort::Integer) => {
            sdl_system::UnaryOperation::Minus(NumberSort::Integer)
        }
        (UnaryOperator::Minus, OperandSort::Duration) => {
            sdl_system::UnaryOperation::Minus(NumberSort::Duration)
        }
        (UnaryOperator::Not, OperandSort::Boolean) => sdl_system::UnaryOperation::Not,
        _ => return None,
    };
    Some(TypedUnaryOperation {
        operation,
        kind: operand,
    })
}

fn arithmetic(operation: Arithmetic, sort: NumberSort, kind: OperandSort) -> Option<TypedOperation>
    ensures { result ≡ kinds.arithmetic operation sort kind }
{
    Some(TypedOperation {
        operation: Operation::Arithmetic(operation, sort),
        kind,
    })
}

fn truth(operation: Operation) -> Option<TypedOperation>
    ensures { result ≡ kinds.truth operation }
{
    Some(TypedOperation {
        operation,
        kind: OperandSort::Boolean,
    })
}

fn scaled(operation: Arithmetic, left: OperandSort, right: OperandSort) -> Option<TypedOperation>
    ensures { result ≡ kinds.scaled operation left right }
{
    match (left, right) {
        (OperandSort::Free, OperandSort::Free) => arithmetic(
            operation,
            NumberSort::Integer,
            OperandSort::Free,
        ),
        (OperandSort::Free | OperandSort::Integer, OperandSort::Free | OperandSort::Integer) => {
            arithmetic(operation, NumberSort::Integer, OperandSort::Integer)
        }
        _ => None,
    }
}

fn added(left: OperandSort, right: OperandSort) -> Option<TypedOperation>
    ensures { result ≡ kinds.added left right }
{
    match (left, right) {
        (OperandSort::Time, OperandSort::Duration | OperandSort::Free)
        | (OperandSort::Duration | OperandSort::Free, OperandSort::Time) => {
            arithmetic(Arithmetic::Plus, NumberSort::Time, OperandSort::Time)
        }
        (OperandSort::Duration, OperandSort::Duration | OperandSort::Free)
        | (OperandSort::Free, OperandSort::Duration) => {
            arithmetic(
                Arithmetic::Plus,
                NumberSort::Duration,
                OperandSort::Duration,
            )
        }
        _ => scaled(Arithmetic::Plus, left, right),
    }
}

fn subtracted(left: OperandSort, right: OperandSort) -> Option<TypedOperation>
    ensures { result ≡ kinds.subtracted left right }
{
    match (left, right) {
        (OperandSort::Time, OperandSort::Duration | OperandSort::Free) => {
            arithmetic(Arithmetic::Minus, NumberSort::Time, OperandSort::Time)
        }
        (OperandSort::Time | OperandSort::Free, OperandSort::Time)
        | (OperandSort::Duration, OperandSort::Duration | OperandSort::Free)
        | (OperandSort::Free, OperandSort::Duration) => {
            arithmetic(
                Arithmetic::Minus,
                NumberSort::Duration,
                OperandSort::Duration,
            )
        }
        _ => scaled(Arithmetic::Minus, left, right),
    }
}

fn ordered(comparison: Comparison, left: OperandSort, right: OperandSort) -> Option<TypedOperation>
    ensures { result ≡ kinds.ordered comparison left right }
{
    match (left, right) {
        (OperandSort::Free, OperandSort::Free)
        | (OperandSort::Free | OperandSort::Integer, OperandSort::Integer)
        | (OperandSort::Integer, OperandSort::Free)
        | (OperandSort::Free | OperandSort::Time, OperandSort::Time)
        | (OperandSort::Time, OperandSort::Free)
        | (OperandSort::Free | OperandSort::Duration, OperandSort::Duration)
        | (OperandSort::Duration, OperandSort::Free) => truth(Operation::Comparison(comparison)),
        _ => None,
    }
}

fn compared(comparison: Comparison, left: OperandSort, right: OperandSort) -> Option<TypedOperation>
    ensures { result ≡ kinds.compared comparison left right }
{
    match (left, right) {
        (OperandSort::Boolean, OperandSort::Boolean) | (OperandSort::Pid, OperandSort::Pid) => {
            truth(Operation::Comparison(comparison))
        }
        _ => ordered(comparison, left, right),
    }
}

fn joined(logic: Logic, left: OperandSort, right: OperandSort) -> Option<TypedOperation>
    ensures { result ≡ kinds.joined logic left right }
{
    match (left, right) {
        (OperandSort::Boolean, OperandSort::Boolean) => truth(Operation::Logic(logic)),
        _ => None,
    }
}
