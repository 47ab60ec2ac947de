//! What a run covered of its specification, as a text.
//!
//! `coverage` takes a specification with its system, its script and the report of its run, and makes one of two texts:
//! a plain one for people, which tells first what the run never did, and a tracefile of LCOV for programs. What there
//! is to cover is in the module `goals`, how often the run passed it in `counts` and `marks`, the texts in `sections`.

mod answers;
mod item_list;
mod run;
mod section;
mod times;
mod words;

pub use run::{Form, Run, coverage};
