//! Expressions with their names and sorts resolved (Z.104: expressions).

use crate::id::VariableId;
use crate::operation::{Operation, UnaryOperation};
use port_model::{SignalId, Value};

/// An expression. Operators of one level stand in one chain, which groups to the left; what stood in parentheses stands
/// in its place.
#[cycle(expression)]
#[derive(Drop)]
pub enum Expression {
    /// A literal, or the value of a synonym.
    Value(Value),
    Variable(VariableId),
    /// The time of the transition.
    Now,
    Pid(PidExpression),
    /// Whether the timer is active that was set with these values.
    Active {
        timer: SignalId,
        values: Vec<Expression>,
    },
    Unary {
        operation: UnaryOperation,
        operand: Box<Expression>,
    },
    Chain(Box<Chain>),
}

/// The instances that an instance knows by a word.
#[derive(Clone, Copy, PartialEq, Eq)]
pub enum PidExpression {
    /// The instance itself.
    SelfPid,
    /// The instance that created it, or null.
    Parent,
    /// The instance that it created last, or null.
    Offspring,
    /// The instance from which the latest consumed signal came, or null.
    Sender,
}

/// Operands joined by operations of one level, which group to the left.
#[cycle(expression)]
#[derive(Drop)]
pub struct Chain {
    pub first: Expression,
    pub rest: Vec<Link>,
}

/// An operation and the operand behind it.
#[cycle(expression)]
#[derive(Drop)]
pub struct Link {
    pub operation: Operation,
    pub operand: Expression,
}
