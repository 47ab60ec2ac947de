//! What comes out of a run, as text.
//!
//! `write_report` writes a report, which is the records of the instances, as lines of text, through any writer. After a
//! fault of the writer a prefix of the text may have gone out, and nothing else. What a report is made of, from a record
//! down to a name, is there for other texts of a run, too. These are appended to a `String` (`push_..`). The lines that a
//! report has most of are put into a buffer of fixed length by index (`put_..`). A `Page` is such a buffer, which goes to
//! a writer when it is full.
#![tactic(auto)]

mod common_line;
mod event_line;
mod names;
mod numbers;
mod page;
mod pieces;
mod put;
mod record_text;
mod report_text;
mod short_name;
mod short_names;
mod workers;
mod write_whole;

pub use event_line::{push_event, push_signal, push_stimulus, push_values};
pub use names::{process_name, signal_name, state_name, variable_name};
pub use numbers::record_of;
pub use pieces::{push_number, push_pid, push_signed, push_target, push_value};
pub use report_text::{PIECE, push_end, send, write_report, write_rest};
pub use workers::write_report_by_workers;
pub use write_whole::{WriteFault, write_text};
