//! A run as a message sequence chart (Z.120): what it shows, as data.
//!
//! `lay_out` says what a chart shows, in rows and columns: a function of a report, its system, its timeline and the
//! lost signals of its script, and of a selection. The module `picture` draws it. What a chart shows isn't promised by
//! contracts, except what a selection has and how instances are named.
//!
//! Names are words of letters, digits and `_`, and values are numbers, truths and Pids. So nothing in the words of a
//! chart is markup.
#![tactic(auto)]

mod acts;
mod chart;
mod columns;
mod layout;
mod lost;
mod outputs;
mod passage;
mod picture;
mod plan;
mod rows;
mod selection;
mod takes;
mod words;

pub use chart::{Chart, ColumnId, Ending, Row, Sign, Spot, Tail, TimeLine, Tip};
pub use layout::{Subject, lay_out};
pub use picture::{write_html, write_svg};
pub use selection::{Selection, Wanted};
