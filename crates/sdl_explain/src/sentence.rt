//! The sentences that tell a human which rule is broken and what to do about it. One that is about a word goes on
//! after that word, in quotes.

mod broken;
mod script;
mod warning;

pub use broken::build_advice;
pub use script::script_advice;
pub use warning::warning_sentence;
