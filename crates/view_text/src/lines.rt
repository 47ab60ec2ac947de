//! A timeline as lines of text: the lines of the report in the order of the run, each transition with its instance, and
//! after an output what became of the signal if nobody took it.

mod order;
mod script;
mod step_line;
mod text;

pub use text::write_lines;
