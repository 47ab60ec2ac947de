//! Why there is no system of a specification.

ghost use Rattle.std.specs.Prelude.{◌≡◌, IfOk};
ghost use Rattle.sdl_build.specs.ErrorText.{rule_text};
ghost use Rattle.sdl_build.specs.Outcome.{Tells};
ghost use Rattle.build_names.specs.Faults.{diagnostic_of};

use build_names::{Fault, Rule};
use sdl_tree::Name;
use std::alloc::{AllocError, Global};
use std::error::Error;
use std::fmt;

/// Why there is no system of a specification.
#[derive(Debug, Drop)]
pub enum BuildError {
    /// A rule is broken at a word of the text.
    Broken { rule: Rule, word: Name },
    /// A growth was refused.
    Memory,
}

impl BuildError {
    /// The error that tells this fault.
    pub(crate) fn of(alloc: Global, fault: Fault<'_>) -> Result<Self, AllocError>
        ensures { IfOk result (Tells (diagnostic_of fault.entry)) }
    {
        let word = Name {
            text: String::from_str(alloc, fault.token.text)?,
            place: fault.token.place,
        };
        Ok(BuildError::Broken {
            rule: fault.rule,
            word,
        })
    }
}

/// The line that tells it, without its end.
impl fmt::Display for BuildError {
    ghost use Rattle.std.specs.Prelude.{Some};
    ghost use Rattle.sdl_build.specs.ErrorText.{build_text};

    ghost output = { λ error. Some (build_text error) };

    fn fmt<W: fmt::Write>(&self, f: &mut fmt::Formatter<W>) -> fmt::Result {
        match self {
            BuildError::Broken { rule, word } => {
                let Name { text, place } = word;
                let check = rule_text(*rule);
                write!(f, "build {place} {check} {text}")
            }
            BuildError::Memory => write!(f, "build Memory"),
        }
    }
}

impl Error for BuildError {}

impl From<AllocError> for BuildError {
    ghost use Rattle.sdl_build.specs.declared.error.BuildError.TheVariants.{Memory};

    ghost from_gives = { λ _ error. error ≡ Memory };

    fn from(_refused: AllocError) -> Self {
        BuildError::Memory
    }
}

/// The name of a rule.
fn rule_text(rule: Rule) -> &'static str
    ensures { result.now ≡ rule_text rule }
{
    match rule {
        Rule::Unknown => "Unknown",
        Rule::Duplicate => "Duplicate",
        Rule::Sort => "Sort",
        Rule::TwiceInState => "TwiceInState",
        Rule::NoState => "NoState",
        Rule::NoLabel => "NoLabel",
        Rule::NoRoute => "NoRoute",
        Rule::BadCount => "BadCount",
        Rule::NoEnd => "NoEnd",
        Rule::Limit => "Limit",
    }
}
