//! The behaviour of a process in SDL/PR, from the words of a text: actions, transitions with their decisions, and
//! states with their stimuli.
//!
//! Each function gives just what its definition in `specs/` reads, unless memory fails; the laws in `proofs/` say that
//! these definitions read what the grammar spells and nothing else.

pub mod actions;
pub mod answers;
pub mod clauses;
mod optional;
pub mod place;
pub mod states;
pub mod stimuli;
pub mod transitions;
