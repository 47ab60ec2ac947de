//! What is left of a text without the words around some of its places, so that other faults of it are found.
//!
//! `Rest::leave_out` makes what is around a place blank: a definition, a statement, a whole decision, or an input with its
//! transition. `leave_out_line` does so with a line. What is left is as long as the text, and stays where it was. The
//! contracts promise this, and which words and bytes are left out: `specs/Cut.antt` says what is around a place.

mod cut;
mod filled;
mod gap;
mod rest;
mod scan;
mod words;

pub use filled::leave_out_line;
pub use rest::Rest;
