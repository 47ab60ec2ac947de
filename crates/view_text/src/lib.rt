//! The texts of a timeline: as lines, as JSON, and in the words of Z.120 (the modules `lines`, `json`, `msc`).
//!
//! What each of them goes through, event by event, and how such a text goes out, stands beside them. So do the signals of
//! the script that no instance took: they have their places between the events.
#![tactic(auto)]

mod arrival;
mod course;
mod fate;
mod heard;
mod json;
mod lines;
mod living;
mod lost;
mod msc;
mod occurrences;
mod sending;
mod takes;
mod timeline_text;
mod walk;

pub use json::write_json;
pub use lines::write_lines;
pub use lost::lost_signals;
pub use msc::write_msc;
pub use sending::Sending;
pub use walk::Walk;
