//! What an expression of a specification comes to (Z.104: expressions), for an instance that runs.
//!
//! An expression has a value or fails, by recursion on its tree, under what the instance knows: its variables, the four
//! Pids, the time, and which of its timers are active. `evaluate` answers just that, and the other functions the same
//! at places of a sort, of several expressions, of a timer's key and of a condition. An evaluation changes nothing, and
//! of the port it asks only whether timers are active. Memory can be wanting only where a list of values is kept.

mod expression;
mod identity;
mod knowledge;
pub mod laws;
mod sorts;
mod store;
mod variables;

pub use expression::{evaluate, evaluate_all, evaluate_at, evaluate_key, is_true, place};
pub use identity::Identity;
pub use knowledge::Knowledge;
pub use sorts::sorts_of;
pub use store::Store;
pub use variables::Variables;
