//! What a specification comes to once its names are resolved: the types of expressions and values at their places.
//!
//! An operation has the sort of what it gives, so that evaluation decides nothing: numbers are what they count,
//! whatever their sort, and a value takes the sort of the place that it goes to when it gets there. What an operation
//! gives is defined for all values, and each function here is exactly its definition.
//!
//! A crate that lends a system to threads owes a proof that they may read it at once, and cites it from here.
#![tactic(auto)]

mod answer;
mod expression;
mod id;
pub mod laws;
mod operation;
mod process;
mod route;
mod signal;
mod sort;
mod state;
mod statement;
mod system;

pub use answer::Answer;
pub use expression::{Chain, Expression, Link, PidExpression};
pub use id::{BlockId, ConditionId, LabelId, NodeId, ProcessId, StateId, TableId, VariableId};
pub use operation::{
    Arithmetic, Comparison, Failure, Logic, NumberSort, Operation, UnaryOperation, compare,
    number_of, truth_of,
};
pub use process::{Process, State, Variable};
pub use route::{Dest, Reach, ReceiversId, Routes, Source, Target};
pub use signal::{Signal, SignalSet, Timer};
pub use sort::{Sort, in_sort, pid_of};
pub use state::{
    Choice, Continuous, Enabled, Enabling, Reaction, Reactions, Reception, StateTable,
};
pub use statement::{
    Assignment, Branch, Creation, Decision, Destination, Due, Node, Output, Sending, Setting,
    Statement, TimerUse, Way,
};
pub use system::System;
