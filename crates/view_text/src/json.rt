//! A timeline as JSON Lines: an object for each transition and each lost signal of the script, in the order of the
//! run, and one for the end.
//!
//! Keys are always in the same order, and all is ASCII. Nothing needs an escape: the texts in quotes are words of this
//! crate, failures, numbers of instances, and names of SDL, which have letters, digits and underscores alone.

mod closing;
mod deed;
mod lost;
mod opening;
mod pieces;
mod text;

pub use text::write_json;
