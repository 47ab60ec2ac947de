//! What names stand for at a place of the text.

ghost use Rattle.std.specs.Prelude.{◌≡◌, option_map};
ghost use Rattle.build_expressions.specs.Scope.{constant_at, value_meaning};

use build_names::Outward;
use port_model::{SignalId, Value};
use sdl_system::{ProcessId, Sort, VariableId};

/// The outcome of a constant expression.
#[derive(Clone, Copy, PartialEq, Eq)]
pub enum Constant {
    Value(Value),
    /// It has no value: an operation in it has none, or it rests on a synonym without a value, as on a circle of
    /// synonyms.
    NoValue,
    /// It breaks a rule, or rests on a synonym that does.
    Refused,
}

/// A synonym, by its place among all synonyms of the specification in the order of the text.
#[derive(Clone, Copy, PartialEq, Eq)]
pub struct SynonymId(pub u32);

/// The declaration of a name in an expression. A sort is None if the name of the sort is no sort's.
#[derive(Clone, Copy, PartialEq, Eq)]
pub enum ValueEntry {
    /// A variable or a formal parameter.
    Variable {
        number: VariableId,
        sort: Option<Sort>,
    },
    Synonym {
        number: SynonymId,
        sort: Option<Sort>,
    },
}

/// Gives the meaning of a name with this declaration, with these constants of the synonyms.
fn meaning(entry: Option<ValueEntry>, constants: &[Constant]) -> Option<ValueMeaning>
    ensures { result ≡ option_map (value_meaning constants.now) entry }
{
    match entry {
        None => None,
        Some(ValueEntry::Variable { number, sort }) => {
            Some(ValueMeaning::Variable { number, sort })
        }
        Some(ValueEntry::Synonym { number, sort }) => Some(ValueMeaning::Synonym {
            sort,
            value: constant_at(constants, number),
        }),
    }
}

/// Gives the constant of the synonym. One that has no place among them has no value.
fn constant_at(constants: &[Constant], synonym: SynonymId) -> Constant
    ensures { result ≡ constant_at constants.now synonym }
{
    match constants.get(synonym.0 as usize) {
        Some(constant) => *constant,
        None => Constant::NoValue,
    }
}

/// The meaning of a name in an expression: a variable, or the constant of a synonym.
#[derive(Clone, Copy, PartialEq, Eq)]
pub enum ValueMeaning {
    /// A variable or a formal parameter.
    Variable {
        number: VariableId,
        sort: Option<Sort>,
    },
    Synonym {
        sort: Option<Sort>,
        value: Constant,
    },
}

/// The meaning of the name of a signal or of a timer, with the sorts of its parameters. A sort is None if the name of
/// the sort is no sort's.
#[derive(Clone, Copy)]
pub enum SignalMeaning<'s> {
    Signal {
        number: SignalId,
        sorts: &'s [Option<Sort>],
    },
    Timer {
        number: SignalId,
        sorts: &'s [Option<Sort>],
        /// Whether it can be set without a time.
        has_default: bool,
    },
}

/// The meaning of the name of a process or of a block. A process has the sorts of its formal parameters.
#[derive(Clone, Copy)]
pub enum AgentMeaning<'s> {
    Process {
        number: ProcessId,
        sorts: &'s [Option<Sort>],
    },
    Block,
}

/// The meanings of names at a place of the text. The innermost scope around the place that has a name decides.
#[derive(Clone, Copy)]
pub struct Scope<'a, 's, 't> {
    /// Variables, formal parameters and synonyms.
    pub values: Outward<'a, 't, ValueEntry>,
    /// The constant of each synonym of the specification, by its number.
    pub constants: &'a [Constant],
    /// Signals and timers.
    pub signals: Outward<'a, 't, SignalMeaning<'s>>,
    /// Processes and blocks.
    pub agents: Outward<'a, 't, AgentMeaning<'s>>,
}

impl<'a, 's, 't> Scope<'a, 's, 't> {
    ghost use Rattle.build_expressions.specs.Scope.{agent_in, agent_meaning, scope_of, signal_in, signal_meaning, value_in};

    /// Gives the meaning of a name in an expression.
    pub fn value(&self, text: &str) -> Option<ValueMeaning>
        ensures { result ≡ value_in (scope_of self.now) text.now }
    {
        meaning(self.values.get(text), self.constants)
    }

    /// Gives the meaning of the name of a signal or of a timer.
    pub fn signal(&self, text: &str) -> Option<SignalMeaning<'s>>
        ensures { option_map signal_meaning result ≡ signal_in (scope_of self.now) text.now }
    {
        self.signals.get(text)
    }

    /// Gives the meaning of the name of a process or of a block.
    pub fn agent(&self, text: &str) -> Option<AgentMeaning<'s>>
        ensures { option_map agent_meaning result ≡ agent_in (scope_of self.now) text.now }
    {
        self.agents.get(text)
    }
}
