//! What a run covered of its specification, and what it never did: each state, in each state each stimulus, and each answer
//! of each decision.
//!
//! `Counts::of` counts the events of a report. `specs/Coverage` defines, by recursion on the events of a record, how
//! often it passes a point; a count is the sum of that over all records. The time is linear in the events. What there is to
//! pass, and where, says the module `goals`; the modules `marks` and `covered` count how often each answer was taken, by
//! a second run of a tree with a mark at each answer.
#![tactic(auto)]

mod counts;
mod covered;
mod goals;
mod marks;
mod point;
mod sections;
mod walk;

pub use covered::{Form, Run, coverage};
