//! What is made of a run in a file of its own: a message sequence chart, as a picture or as text of Z.120, and what the
//! run covered of its specification.
//!
//! `draw` writes the chart; the ending of the file's name chooses its form (`Form`). Of what is drawn nothing is
//! promised beyond what `view_chart` and `view_text` promise of a timeline of the run. `cover` writes the coverage, in a
//! form that `coverage_form` chooses: it is what `view_coverage` promises of a run, its texts and its report. `OutputFile`
//! is the file: it takes the place of another one only once it is whole. `nobody` tells of a choice of instances that the
//! run has none. `sent_signals` has the signals of a run to the environment, which a test may expect.

mod chosen;
mod covering;
mod drawing;
mod form;
mod output_file;
mod picture;
mod sending;

pub use chosen::nobody;
pub use covering::{ToldRun, cover, coverage_form};
pub use drawing::draw;
pub use form::Form;
pub use output_file::OutputFile;
pub use sending::{Sent, sent_signals};
