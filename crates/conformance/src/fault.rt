//! What is wrong with a case file, and why the driver gives up.

use crate::escape::EscapeError;
use std::alloc::AllocError;
use std::io;
use thiserror::Error;

/// A mistake in a line of a case file.
#[derive(Debug, Drop, Error)]
pub enum FormatError {
    #[error("the last line has no end")]
    NoLineEnd,
    #[error("a name is made of letters, digits, `-`, `_` and `.`")]
    Name,
    #[error("the name is taken")]
    NameTwice,
    #[error("not `args: `, `workers: `, `status: `, a comment or the title of a block")]
    Head,
    #[error("this stands twice")]
    Twice,
    #[error("no `args: `")]
    NoArguments,
    #[error("`workers: ` has numbers of workers for a run")]
    Workers,
    #[error("a status is a number from 0 to 255")]
    Status,
    #[error("`lines` and `json` are blocks of a run")]
    View,
    #[error("`svg` and `mpr` are blocks of a run without workers")]
    Chart,
    #[error("a block is `input`, `output`, `explained`, `lines`, `json`, `svg`, `mpr` or `table`")]
    Block,
    #[error("no input")]
    NoInput,
    #[error("no output")]
    NoOutput,
    #[error("a row has ` ==> ` between its two sides")]
    Row,
    #[error("a table without a row")]
    NoRow,
    #[error(transparent)]
    Escape(EscapeError),
}

/// Why a file could not be read, after its name.
#[derive(Debug, Drop, Error)]
pub enum FormatFault {
    #[error("{line}: {error}")]
    At { line: usize, error: FormatError },
    #[error(" {0}")]
    Memory(#[from(alloc)] AllocError),
}

/// Why the driver gives up.
#[derive(Debug, Drop, Error)]
pub enum Fault {
    #[error("{file}: {error}")]
    Unreadable { file: String, error: io::Error },
    #[error("{file}:{fault}")]
    Format { file: String, fault: FormatFault },
    #[error("no case is called {0}")]
    Unknown(String),
    #[error("there is no case")]
    NoCase,
    #[error(transparent)]
    Io(#[from] io::Error),
    #[error(transparent)]
    Memory(#[from(alloc)] AllocError),
}
