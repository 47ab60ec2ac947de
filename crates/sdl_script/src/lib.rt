//! Scripts: the signals that the environment of a system sends, each at its time.
//!
//! `read_script` turns the text of a script into signals of a system, with their values and destinations, at times that
//! never fall: exactly what the lines spell. Or it names the first line at fault, and what is wrong with it. By the laws
//! in `laws` a text says one script at most: one spelling has a line, and one meaning in a system.
#![tactic(auto)]

mod byte;
mod cursor;
mod fault;
pub mod laws;
mod line;
mod meaning;
mod script;
mod spelling;
mod value;

pub use script::{Script, ScriptError, ScriptLine, ScriptSignal, read_script};
