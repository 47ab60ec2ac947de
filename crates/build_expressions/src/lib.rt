//! Expressions of a specification: what the names in them stand for, their sorts, and the values of those that are
//! constant (Z.104).
//!
//! `specs/OperandSorts` has the table of operators: what each gives for operands of which sorts; what isn't there is no
//! operation. `specs/Scope` has what names stand for at a place of the text, and `specs/Typing` the kind and the term of
//! an expression and the rules that it breaks, by that table. Each function answers exactly what its definition says, and
//! notes exactly the faults of its list.
#![tactic(auto)]

mod answers;
mod arguments;
mod constants;
mod context;
mod expression;
pub mod laws;
mod left;
mod operand_sort;
mod operator;
mod scope;
mod typed;
mod typing;

pub use answers::resolve_answer;
pub use constants::constant;
pub use context::Context;
pub use expression::{resolve, resolve_condition, resolve_for, resolve_values};
pub use operand_sort::OperandSort;
pub use operator::{result_of, unary_result_of};
pub use scope::{
    AgentMeaning, Constant, Scope, SignalMeaning, SynonymId, ValueEntry, ValueMeaning,
};
pub use typed::Typed;
