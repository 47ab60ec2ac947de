//! What is expected of a run: the text of the signals that it sends to the environment, and the first line in which two
//! texts differ.
//!
//! `outputs` has these signals in the order of the run, and `outputs_by_sender` those of each instance by themselves:
//! with workers no more of their order is fixed. `lines_of` parts a text, and `by_sender` puts its lines in this second
//! order. `first_difference` says where the lines of two texts differ, and nothing just if they are the same;
//! `difference_text` shows it to a human.

mod difference;
mod environment;
mod line;
mod sender;
mod shown;

pub use difference::{Difference, first_difference};
pub use environment::{outputs, outputs_by_sender};
pub use line::lines_of;
pub use sender::by_sender;
pub use shown::difference_text;
