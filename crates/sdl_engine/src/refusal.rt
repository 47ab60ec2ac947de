//! Refusals of a text or of its run.

use crate::options::Outcome;
use run_record::RunError;
use sdl_build::BuildError;
use sdl_parse::ParseError;
use sdl_script::ScriptError;
use std::error::Error;
use std::fmt;

/// Why there is no report, or no canonical text: what comes first of tokens and tree, system, script and run. Its text
/// is the line that says so.
#[derive(Debug, Drop)]
pub enum Refusal {
    Parse(ParseError),
    Build(BuildError),
    Script(ScriptError),
    Run(RunError),
}

/// The line that tells it, without its end.
impl fmt::Display for Refusal {
    ghost use Rattle.std.specs.Prelude.{Some};
    ghost use Rattle.sdl_engine.specs.RefusalText.{refusal_text};

    ghost output = { λ refusal. Some (refusal_text refusal) };

    fn fmt<W: fmt::Write>(&self, f: &mut fmt::Formatter<W>) -> fmt::Result {
        match self {
            Refusal::Parse(error) => write!(f, "{error}"),
            Refusal::Build(error) => write!(f, "{error}"),
            Refusal::Script(error) => write!(f, "{error}"),
            Refusal::Run(error) => write!(f, "{error}"),
        }
    }
}

impl Error for Refusal {}

impl Refusal {
    ghost use Rattle.sdl_engine.specs.Answer.{outcome_of};
    ghost use Rattle.std.specs.Prelude.{◌≡◌};

    /// Whether the text is refused or its run.
    pub fn outcome(&self) -> Outcome
        ensures { result ≡ outcome_of self.now }
    {
        match self {
            Refusal::Run(_) => Outcome::RunRefused,
            _ => Outcome::TextRefused,
        }
    }
}
