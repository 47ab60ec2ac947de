//! The faults that the checks of a specification note, and which of them is told.
//!
//! A check notes each rule that is broken, at the word where it is. Of all that were noted one is told: a limit before
//! all else, then the first in the text, then the rule that comes first in the list of rules. Each function says which
//! list of faults it notes, and which of them is told follows by a law over lists (`laws`).

mod fault;
pub mod laws;

pub use fault::{Fault, Faults, Rule, Token};
