//! What is wanted at a place of a specification.

use build_names::ScopeId;
use sdl_lex::Place;
use sdl_tree::{Chain, Expression, Name, SortName, UnaryOperator};

/// What a name has to stand for.
#[derive(Clone, Copy, PartialEq, Eq)]
pub enum Kind {
    Sort,
    Signal,
    /// A signal in a list in which signal lists can be, too, in parentheses.
    ListedSignal,
    Timer,
    /// A signal or a timer, in an input.
    Stimulus,
    /// A signal or a timer in a save, in which signal lists can be, too, in parentheses.
    Saved,
    SignalList,
    Channel,
    /// A block or a process, at an end of a channel.
    Agent,
    Process,
    Variable,
    /// A variable or a synonym, in an expression.
    Value,
    /// A synonym, in a constant.
    Constant,
    /// A synonym, in an answer.
    Answer,
    /// A variable, a synonym or a process, after `to`.
    Destination,
}

/// For what a value is given.
#[derive(Clone, Copy)]
pub enum Use<'t> {
    Assigned(&'t Name),
    /// The initial value of variables, and the value of a synonym.
    Initial(&'t SortName),
    /// The value for the parameter of this number, from 0, of a signal, a timer or a process.
    Parameter {
        of: &'t Name,
        kind: Kind,
        number: usize,
    },
    Condition,
    SetTime,
    /// The duration that a timer has of its own.
    OwnDuration,
    Destination,
    /// An answer to this question.
    Answer(&'t Expression),
    Count,
}

/// What stands at a place.
#[derive(Clone, Copy)]
pub enum What<'t> {
    /// A name that has to stand for something.
    Name(&'t Name, Kind),
    /// The first word of a value.
    Value(&'t Expression, Use<'t>),
    /// The operator of a chain before the operand of this number, from 0, after the first.
    Operator(&'t Chain, usize),
    /// The sign before an operand.
    Sign(UnaryOperator, &'t Expression),
    /// A name with so many values.
    Applied {
        name: &'t Name,
        kind: Kind,
        values: usize,
    },
    /// A signal in an input, with so many places for variables.
    Received {
        name: &'t Name,
        places: usize,
    },
    /// The variable that takes the value of the parameter of this number, from 0.
    Taking {
        variable: &'t Name,
        signal: &'t Name,
        number: usize,
    },
    /// A timer that is set without a time.
    SetAlone(&'t Name),
}

/// Something that stands at a place, in a scope.
#[derive(Clone, Copy)]
pub struct Site<'t> {
    pub place: Place,
    pub scope: ScopeId,
    pub what: What<'t>,
}
