//! The command line of `sdlrun`: its options, its help, and what it asks for.
//!
//! `read_command_line` reads it by the crate `clap`, and answers help and mistakes at once; `chosen` tells which words
//! choose what. Options are read within their ranges, so what is chosen can be done as it is. `overwritten_by` tells
//! whether a file that is to be written, or compared with, is one of those that are read. The module `views` draws and
//! covers the run that was told, and `expected` compares what was written with what is expected of it.
#![tactic(auto)]

mod chart;
mod commands;
mod coverage;
mod expectation;
mod expected;
mod mistake;
mod misuse;
mod option_tip;
mod overwriting;
mod request;
mod task;
mod views;

pub use chart::ChartFile;
pub use coverage::CoverageFile;
pub use expectation::{Expectation, Part};
pub use expected::{Difference, by_sender, difference_text, first_difference, lines_of};
pub use misuse::mistake_text;
pub use overwriting::{Overwriting, overwritten_by};
pub use request::{Request, read_command_line};
pub use task::{InputFile, Task, chosen};
pub use views::{Form, OutputFile, Sent, ToldRun, cover, draw, nobody, sent_signals};
