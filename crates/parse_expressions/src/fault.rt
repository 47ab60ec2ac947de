//! Why no reading goes on at the front of the cursor, and what must stand there.

ghost use Rattle.std.specs.Prelude.{◌≡◌, Some};
ghost use Rattle.parse_expressions.specs.Wanted.{wanted_text};
ghost use Rattle.parse_expressions.specs.declared.fault.Fault.TheVariants.{Memory};

use sdl_tree::Mark;
use std::alloc::{AllocError, AllocFailed};
use std::fmt;

/// A fault of the front of the cursor, which has the place. A reading that comes to one leaves the cursor there.
#[derive(Drop)]
pub enum Fault {
    /// Another token stands there than what must.
    Expected(Wanted),
    /// A `provided` stands there right behind the end of a priority input, which has no condition.
    Condition,
    /// A parenthesis or a decision opens there inside 64 others.
    TooDeep,
    Memory,
}

impl From<AllocError> for Fault {
    ghost from_gives = { λ _ e. e ≡ Memory };

    fn from(_error: AllocError) -> Fault {
        Fault::Memory
    }
}

impl<T: Drop> From<AllocFailed<T>> for Fault {
    ghost from_gives = { λ _ e. e ≡ Memory };

    fn from(_failed: AllocFailed<T>) -> Fault {
        Fault::Memory
    }
}

/// The part of a text that must stand at a place, once all that may be left out there is passed over.
#[derive(Debug, Drop)]
pub enum Wanted {
    /// A keyword or a sign, told as it is spelled in lower case.
    Mark(Mark),
    /// A name.
    Name,
    /// A natural number.
    Number,
    /// A character string, behind `comment`.
    Text,
    /// An expression.
    Expression,
    /// An action behind its label, or a terminator.
    Action,
    /// An end of a channel path: `env` or the name of an agent.
    Point,
    /// The end of the text.
    End,
    /// The name of what a word such as `endprocess` ends.
    ThisName(String),
}

impl Wanted {
    /// The word by which it is told.
    pub fn text(&self) -> &str
        ensures { result.now ≡ wanted_text self.now }
    {
        match self {
            Wanted::Mark(mark) => mark.text(),
            Wanted::Name => "name",
            Wanted::Number => "number",
            Wanted::Text => "text",
            Wanted::Expression => "expression",
            Wanted::Action => "action",
            Wanted::Point => "point",
            Wanted::End => "end",
            Wanted::ThisName(name) => name.as_str(),
        }
    }
}

/// Writes the word by which it is told.
impl fmt::Display for Wanted {
    ghost output = { λ wanted. Some (wanted_text wanted) };

    fn fmt<W: fmt::Write>(&self, f: &mut fmt::Formatter<W>) -> fmt::Result {
        f.write_str(self.text())
    }
}
