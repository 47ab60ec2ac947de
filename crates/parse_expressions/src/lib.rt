//! What every production of SDL/PR is read with: the words of a text with their places, a cursor over them, and lists
//! of anything that can be read.
//!
//! A cursor stands before the words that are not read yet. A production is a function that reads it, or leaves the
//! cursor where no reading goes on and tells the fault. `specs/Reading.antt` has the ways in which readings are put
//! together. Here stand the productions that many others have, too: names, sorts, ends, signals and expressions.
//!
//! Each function gives just what its definition in `specs/` reads, unless memory fails; the laws in `proofs/` say that
//! these definitions read what the grammar spells and nothing else.
#![tactic(auto)]

mod cursor;
pub mod expressions;
mod fault;
mod lists;
pub mod parts;
pub mod place;
pub mod signals;
mod word;

pub use cursor::Cursor;
pub use fault::{Fault, Wanted};
pub use lists::{Perhaps, Production, enclosed, in_parentheses, repeated, separated};
pub use word::{PlacedWord, Word, placed_words};
