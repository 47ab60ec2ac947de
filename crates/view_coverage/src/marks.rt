//! How often a run took each answer of each decision, of which its records say nothing.
//!
//! `mark` puts a task at the head of each part of each decision of a tree, on a variable that no text can name: a
//! mark, with the number of the part. The marked tree is built and run as any other. Then `passes` counts the marks in
//! its report, if that is without them the report of the run itself. It isn't if a mark was one statement too many for
//! a transition, or for the specification.

mod count;
mod entry;
mod marker;
mod same_entry;
mod same_run;

pub use count::passes;
pub use marker::mark;
