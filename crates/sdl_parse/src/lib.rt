//! The tree of a specification in SDL/PR, from its text.
//!
//! `parse` answers the one tree that the text spells, places and spellings included, or one refusal. What each refusal
//! says of the text stands in `specs/Parser`; of `Expected` alone no contract says its place and its word. The other
//! functions read definitions; what a process does is read by `crate::behaviour`.
#![tactic(auto)]

mod behaviour;
mod channels;
mod declarations;
mod error;
mod laws;
mod parser;
mod place;
mod processes;
mod synonyms;
mod system;
mod timers;

pub use error::ParseError;
pub use laws::{alike_spell, one_tree};
pub use parser::parse;
