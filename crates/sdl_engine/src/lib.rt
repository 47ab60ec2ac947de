//! The whole tool over any reader and writer: `run_text` reads a specification with its script, and writes the
//! canonical text, a run, or the one line that refuses the text. A run is told by its report, or in its order, as lines
//! or as JSON. `run_and_note` does the same for a text and a script of its own, and tells a human more: why a text is
//! refused, what cut a run, which instances failed. It keeps the run that was told, with its texts, if that is asked for.
//! Both are told who makes the steps of a run (`Runner`): `Serial` has no threads, and with it they always return;
//! `Threaded` has threads for workers.
//!
//! The theorem of the tool is the contract of `run_text`; `run_and_note` has the same clauses. What is below it: an
//! input that is read (`reading`), the way from there to a text or a run (`pipeline`), what is written of either
//! (`answer`), of a run by the view (`views`, `order`), and what a human is told beside (`notes`, `explained`).
//!
//! `read_source` holds all that a `Source` has, up to a bound, or tells that it has more. `read_input` does so for a
//! text alone. `Texts::parts` gives the two parts of what is held: the specification ends before the first line that is
//! exactly `%script`, and the script follows that line. A script of its own takes the place of the one that follows.
#![tactic(auto)]

mod answer;
mod explained;
mod fault;
mod input;
mod line;
mod notes;
mod options;
mod order;
mod pipeline;
mod reading;
mod refusal;
mod refusal_text;
mod run;
mod runner;
mod serial;
mod source;
mod text;
mod texts;
mod threaded;
mod views;
mod warned;

pub use notes::{Names, Notes};
pub use options::{Command, Options, Outcome, TextFault, View};
pub use order::order_of;
pub use refusal::Refusal;
pub use refusal_text::{fixed_line, refusal_line};
pub use run::Run;
pub use runner::Runner;
pub use serial::Serial;
pub use serial_run::{Listener, Nobody};
pub use source::Source;
pub use text::{run_and_note, run_text};
pub use texts::Texts;
pub use threaded::Threaded;
pub use view_run::Order;
pub use warned::suspicions_of;
