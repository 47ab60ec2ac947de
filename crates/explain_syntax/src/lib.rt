//! What is said of a text that is no specification, and of a line that is no line of a script: which sentence, by the
//! words around the place.
//!
//! `parse_advice` gives the sentence on a text, and `opening_sentence` the one on what is open there. `line_fault` finds
//! the word at which a line stops being one of a script, and says what is wrong there. No contract speaks of which words
//! are said.
#![tactic(auto)]

mod byte;
mod call;
mod foreign;
mod habit;
mod keyword;
mod left_out;
mod lines;
mod memory;
mod misplaced;
mod open;
mod parse;
mod rests;
mod script_fault;
mod script_line;
mod script_receiver;
mod script_value;
mod script_words;
mod unended;
mod wanted_mark;
mod wanted_name;

pub use lines::{
    Advice, Around, Excerpt, Explanation, Nearest, Origin, Other, about_marked, earlier_place,
    earlier_word, lowered, marked_word, opening_of, push_line_end, push_more, push_rows,
    unclosed_before,
};
pub use memory::NO_MEMORY;
pub use open::opening_sentence;
pub use parse::parse_advice;
pub use rests::{Rest, leave_out_line};
pub use script_fault::LineFault;
pub use script_line::line_fault;
pub use script_words::{name_column, name_in, receiver_column, receiver_in, time_column};
