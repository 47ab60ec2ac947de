//! What a run covered, process by process, and the two texts of it.
//!
//! A section has what there is to cover in a process, each with how often it was. `plain_text` makes the text for
//! people; its contract says exactly which text that is, except for the widths of its columns. `tracefile` makes the
//! text for programs that read tracefiles of LCOV; its contract says exactly which text that is.

mod column;
mod group;
mod item;
mod lcov;
mod line_count;
mod plain;
mod rows;
mod source;

pub use item::{Branch, Item, Kind, Knowledge, Section};
pub use lcov::tracefile;
pub use plain::plain_text;
