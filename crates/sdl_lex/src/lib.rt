//! The tokens of a specification in SDL/PR: words, numbers, character strings and marks.
//!
//! `lex` cuts a text into its tokens, slices of the text in order with only blanks and comments between them, or
//! tells the first fault of the text and its place. Keywords are words here: what a word means, `sdl_tree` says.
#![tactic(auto)]

mod byte;
mod error;
mod lexer;
mod piece;
mod place;
mod token;

pub use byte::is_word_byte;
pub use error::LexError;
pub use lexer::{lex, one_fault, one_list};
pub use place::{Place, place_of};
pub use token::{Kind, Token};
