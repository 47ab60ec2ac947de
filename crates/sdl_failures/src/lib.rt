//! The failures of a run, said for a human: which instance failed, when, at which place of the text, and by what, with
//! the line and a mark under the word.
//!
//! The place is found by the module `replayed`, and in the tree of the text by `located`. `blame` evaluates the
//! expression there once more, by the tree and by what it means side by side, as far as the word that fails. Which
//! sentence is said, no contract speaks of; the ten that failed first are told, and how many more.
#![tactic(auto)]

mod blame;
mod fallen;
mod located;
mod operands;
mod place;
mod reason;
mod replayed;
mod sentence;
mod statement;
mod stop;
mod tell;

pub use located::Condition;
pub use replayed::{ConditionKind, failed_condition, has_failed};
pub use tell::{Told, failures_text};
