//! The course of a run with workers: what is kept beside its records, so that the one order can be told in which all of
//! it happened (Z.101: system).
//!
//! A record has what its instance did, in its order. What the instances did to each other is kept in words: of each
//! port who put each entry, of each step how many entries were drawn by then, and of each look at who lives which
//! roster it saw. `KeptWords` is such a list, a `CourseLog` has those of an instance while the run goes on, and a
//! `Course` has all of a run.

mod course;
mod course_log;
mod kept_words;

pub use course::{Course, SenderInto};
pub use course_log::CourseLog;
pub use kept_words::KeptWords;
