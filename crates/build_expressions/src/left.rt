//! The operands of a chain as far as they are resolved.

ghost use Rattle.std.specs.Prelude.{◌≡◌, IfOk, option_map};
ghost use Rattle.build_expressions.specs.Partial.{both};
ghost use Rattle.build_expressions.specs.Resolved.{operands_term};
ghost use Rattle.sdl_system.specs.Term.{binary, term_of};

use crate::operand_sort::OperandSort;
use crate::operator::TypedOperation;
use crate::typed::Typed;
use sdl_system::{Chain, Expression, Link, Operation};
use std::alloc::{AllocError, Global};

/// Operands joined by operations of one level.
#[derive(Drop)]
struct Operands {
    first: Expression,
    rest: Vec<Link>,
}

/// The left side of the next operator of a chain.
#[derive(Drop)]
pub struct Left {
    pub kind: OperandSort,
    operands: Option<Operands>,
    is_refused: bool,
}

impl Left {
    ghost use Rattle.build_expressions.specs.Resolved.{left_of, typed_of};
    ghost use Rattle.build_expressions.specs.Typing.{joined_by};

    /// The first operand.
    pub fn new(alloc: Global, first: Typed) -> Self
        ensures { left_of result ≡ typed_of first }
    {
        Left {
            kind: first.kind,
            operands: begun(alloc, first.expression),
            is_refused: first.is_refused,
        }
    }

    /// One more operand, joined by this operation.
    pub fn join(self, operation: TypedOperation, right: Typed) -> Result<Self, AllocError>
        ensures { IfOk result (λ joined. left_of joined ≡ joined_by (left_of self) (typed_of right) operation) }
    {
        Ok(Left {
            kind: operation.kind,
            operands: more(self.operands, operation.operation, right.expression)?,
            is_refused: self.is_refused || right.is_refused,
        })
    }

    /// The whole chain.
    pub fn finish(self, alloc: Global) -> Result<Typed, AllocError>
        ensures { IfOk result (λ typed. typed_of typed ≡ left_of self) }
    {
        Ok(Typed {
            kind: self.kind,
            expression: chain(alloc, self.operands)?,
            is_refused: self.is_refused,
        })
    }
}

fn begun(alloc: Global, first: Option<Expression>) -> Option<Operands>
    ensures { option_map operands_term result ≡ option_map term_of first }
{
    match first {
        None => None,
        Some(first) => Some(Operands {
            first,
            rest: Vec::new(alloc),
        }),
    }
}

fn more(
    operands: Option<Operands>,
    operation: Operation,
    right: Option<Expression>,
) -> Result<Option<Operands>, AllocError>
    ensures { IfOk result (λ found. option_map operands_term found
        ≡ both (binary operation) (option_map operands_term operands) (option_map term_of right)) }
{
    match (operands, right) {
        (Some(mut operands), Some(operand)) => {
            operands.rest.push(Link { operation, operand })?;
            Ok(Some(operands))
        }
        _ => Ok(None),
    }
}

fn chain(alloc: Global, operands: Option<Operands>) -> Result<Option<Expression>, AllocError>
    ensures { IfOk result (λ found. option_map term_of found ≡ option_map operands_term operands) }
{
    match operands {
        None => Ok(None),
        Some(Operands { first, rest }) => {
            Ok(Some(Expression::Chain(Box::new(alloc, Chain { first, rest })?)))
        }
    }
}
