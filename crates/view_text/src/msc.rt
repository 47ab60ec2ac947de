//! A timeline as text of Z.120: a message sequence chart in the event-oriented form, for other tools.
//!
//! `write_msc` writes exactly the text that `specs/MscText.antt` defines, by cases on the event.

mod event_text;
mod keyword;
mod lost_text;
mod names;
mod text;

pub use text::write_msc;
