//! Where an instance failed, by its record alone, and what it knew there.
//!
//! `find_failure` goes through the record of an instance that failed: up to its last transition by the events alone, and
//! then statement by statement, where the events say what was done and decisions are evaluated. What it answers is a place
//! at which this failure comes (`specs/Stands`): the statement with the part that fails, evaluated on what the instance
//! knew there. An instance that was created begins with the values of its create, so its creators are gone through
//! before it.

mod begin;
mod cause;
mod condition;
mod condition_kind;
mod create;
mod ending;
mod failing;
mod halt;
mod known;
mod part;
mod reception;
mod replay;
mod split;
mod spot;
mod told;
mod walk;

pub use cause::later;
pub use condition_kind::{ConditionKind, failed_condition};
pub use ending::{failure_of, has_failed};
pub use failing::{Failing, find_failure};
pub use halt::Halt;
pub use known::Known;
pub use reception::Misfit;
