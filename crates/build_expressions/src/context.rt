//! Where an expression stands.

use sdl_tree::KeywordValue;

/// Where an expression stands: it decides which operands may stand in it.
#[derive(Clone, Copy, PartialEq, Eq)]
pub enum Context {
    /// In a transition.
    Transition,
    /// In a condition behind `provided`: `now` may not stand there.
    Condition,
    /// Where the text wants a constant: numbers, literals and synonyms alone.
    Constant,
}

impl Context {
    ghost use Rattle.std.specs.Prelude.{◌≡◌};
    ghost use Rattle.build_expressions.specs.Contexts.{allows_instance, allows_word};

    /// Whether an operand that is this keyword may stand there.
    pub fn allows_word(self, value: KeywordValue) -> bool
        ensures { result ≡ allows_word self value }
    {
        match value {
            KeywordValue::True | KeywordValue::False | KeywordValue::Null => true,
            KeywordValue::Now => self == Context::Transition,
            KeywordValue::SelfPid
            | KeywordValue::Parent
            | KeywordValue::Offspring
            | KeywordValue::Sender => self.allows_instance(),
        }
    }

    /// Whether what an instance holds may stand there: variables, formal parameters, timers and the processes that it
    /// knows of.
    pub fn allows_instance(self) -> bool
        ensures { result ≡ allows_instance self }
    {
        match self {
            Context::Transition | Context::Condition => true,
            Context::Constant => false,
        }
    }
}
