//! Advice on a name or a sort of a specification, in the words of what was wanted at its place.
//!
//! `wanted_advice` looks up what has to be at the place of a word, among the sites of the specification
//! (`sdl_explain`). It says what that is, what is there, and what to do; of a name that is misspelled it gives the
//! nearest one. `unsent_advice` and `sent_values_advice` do so for the lines of a script. No contract speaks of which
//! words are said.

mod misfit;
mod names;
mod script;
mod sorts;
mod target;
mod unknown;
mod wanted;

pub use script::{Sent, has_signal, sent_values_advice, unsent_advice};
pub use wanted::wanted_advice;
