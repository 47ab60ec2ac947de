//! What a case is.

use sdl_command_line::Form;
use sdl_engine::Options;

/// The request to the program, on its command line.
#[derive(Clone, Copy)]
pub enum Asked {
    /// A command of the engine.
    Command(Options),
    /// The chart of a run, in this form.
    Chart { options: Options, form: Form },
    /// Words that the driver doesn't know.
    Unknown,
}

/// An exit status and what is written on standard output.
#[derive(Clone, Drop)]
pub struct Answer {
    pub status: u8,
    pub output: Vec<u8>,
}

/// A question to the program and the answer that is wanted.
#[derive(Drop)]
pub struct Case {
    /// Of a table's row the table's name, a slash and the row's number. With workers a slash follows, `workers-` and how
    /// many. Of a view or a chart a slash follows and the title of its block.
    pub name: String,
    pub asked: Asked,
    pub input: Vec<u8>,
    pub wanted: Answer,
    /// What standard error has to say of the text: why it is refused, what cut its run, and its warnings.
    pub explained: Option<Vec<u8>>,
}
