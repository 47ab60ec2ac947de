//! The text of a report, made by several threads.
//!
//! `write_report_by_workers` writes the text that `write_report` writes. The report is cut, in its order, into pieces of
//! so many lines, also in the middle of a record. In each round every thread makes the text of one of the next pieces,
//! into a buffer that is used again, and then the calling thread writes these texts in their order.

mod line;
mod lines;
mod piece;
mod report_text;
mod shares;
mod stretch;

pub use report_text::write_report_by_workers;
