//! What is suspicious in a specification that is accepted: it does what its text says, and may not be what is meant.
//!
//! `warnings` finds it in the tree and the words of a text. Names are compared by their text: in the whole of it, or in a
//! process for what only that can define. A name that is anywhere else there counts as used, whatever it means. So what is
//! told is unused, and some that is unused isn't told. `specs/Heads` says which names stand in a list behind a keyword,
//! `specs/Decisions` which words are answers of a decision, `specs/Found` what is found.
#![tactic(auto)]

mod answered;
mod answers;
mod assigned;
mod back;
mod colons;
mod decisions;
mod defined;
mod elsewhere;
mod found;
mod heads;
mod loops;
mod missing;
mod name_set;
mod oddities;
mod paths;
mod processes;
mod signals;
mod states;
mod suspicion;
mod timers;
mod uninitialized;
mod unused;
mod variables;
mod words;

pub use found::warnings;
pub use suspicion::{Behaviour, Suspicion, Warning};
