//! Faults of a specification, and which of them is told.

ghost use Rattle.std.specs.Prelude.{◌≡◌, None, option_map};
ghost use Rattle.sdl_tree.specs.Views.{name_value};

use sdl_lex::Place;
use sdl_tree::{Mark, Name, Number, Spelling};
use std::marker::Model;

/// A token of the text: how it is spelled, and where it stands.
#[derive(Clone, Copy)]
pub struct Token<'t> {
    pub text: &'t str,
    pub place: Place,
}

impl<'t> Token<'t> {
    ghost use Rattle.build_names.specs.Faults.{token_word, mark_word};

    /// The token of a name.
    pub fn of_name(name: &'t Name) -> Token<'t>
        ensures { token_word result ≡ name_value name.now }
    {
        Token {
            text: name.text.as_str(),
            place: name.place,
        }
    }

    /// The token of a keyword or a mark.
    pub fn of_mark(mark: Mark, word: Spelling) -> Token<'t>
        ensures { token_word result ≡ mark_word mark word }
    {
        Token {
            text: mark.spelled(word.case),
            place: word.place,
        }
    }

    /// The token of a number: its digits.
    pub fn of_number(number: &'t Number) -> Token<'t>
        ensures { token_word result ≡ name_value number.now.digits }
    {
        Token::of_name(&number.digits)
    }
}

/// The rule that is broken. Of two faults at one place the one whose rule comes first in this list is told.
#[derive(Clone, Copy, Debug, PartialEq, Eq)]
pub enum Rule {
    /// The name means nothing here.
    Unknown,
    /// The name stands for something in this scope already.
    Duplicate,
    /// The sort of a value, or the number of the values, doesn't fit.
    Sort,
    /// The state waits for the signal, or saves it, already.
    TwiceInState,
    /// No state list of the process names the state, or there is none to stay in.
    NoState,
    /// The process has no such label.
    NoLabel,
    /// No path leads the signal to a receiver.
    NoRoute,
    /// The numbers of instances don't fit one another, or a constant has no value that fits its place.
    BadCount,
    /// A path through a transition ends without a terminator.
    NoEnd,
    /// More than is built. It is told before all others.
    Limit,
}

impl Rule {
    ghost use Rattle.build_names.specs.Faults.{phase, rank};

    /// Whether it is told behind the limits.
    fn phase(self) -> usize
        ensures { result ≡ phase self }
    {
        match self {
            Rule::Limit => 0,
            _ => 1,
        }
    }

    /// Its number in the list of rules.
    fn rank(self) -> usize
        ensures { result ≡ rank self }
    {
        match self {
            Rule::Unknown => 0,
            Rule::Duplicate => 1,
            Rule::Sort => 2,
            Rule::TwiceInState => 3,
            Rule::NoState => 4,
            Rule::NoLabel => 5,
            Rule::NoRoute => 6,
            Rule::BadCount => 7,
            Rule::NoEnd => 8,
            Rule::Limit => 9,
        }
    }
}

/// A rule that is broken at a token.
#[derive(Clone, Copy)]
pub struct Fault<'t> {
    pub rule: Rule,
    pub token: Token<'t>,
}

impl<'t> Fault<'t> {
    ghost use Rattle.build_names.specs.Faults.{precedes, diagnostic_of};

    /// Whether this fault is told before the other.
    pub fn precedes(&self, other: &Fault<'t>) -> bool
        ensures { result ≡ precedes (diagnostic_of self.now) (diagnostic_of other.now) }
    {
        let (here, there) = (self.token.place, other.token.place);
        if self.rule.phase() != other.rule.phase() {
            self.rule.phase() < other.rule.phase()
        } else if here.line != there.line {
            here.line < there.line
        } else if here.column != there.column {
            here.column < there.column
        } else {
            self.rule.rank() < other.rule.rank()
        }
    }
}

/// The fault to tell among those that were noted.
#[derive(Drop)]
pub struct Faults<'t> {
    first: Option<Fault<'t>>,
}

/// The fault that is told, if one was noted.
impl<'t> Model for Faults<'t> {
    ghost use Rattle.std.specs.Prelude.{Option, option_map};
    ghost use Rattle.build_names.specs.Faults.{Diagnostic, diagnostic_of};

    ghost Value = { Option Diagnostic };

    ghost view = { λ faults. option_map diagnostic_of faults.first };
}

impl<'t> Faults<'t> {
    ghost use Rattle.build_names.specs.Faults.{diagnostic_at, diagnostic_of, earlier, token_word};

    /// No fault noted yet.
    pub fn new() -> Self
        ensures { result ≡ None }
    {
        Faults { first: None }
    }

    /// Notes that a rule is broken at a token.
    pub fn note(&mut self, rule: Rule, token: Token<'t>)
        ensures { self.new ≡ earlier self.old (diagnostic_at rule (token_word token.entry)) }
    {
        let fault = Fault { rule, token };
        let is_first = match &self.first {
            None => true,
            Some(first) => fault.precedes(first),
        };
        if is_first {
            self.first = Some(fault);
        }
    }

    /// The fault that is told, if one was noted.
    pub fn first(&self) -> Option<Fault<'t>>
        ensures { option_map diagnostic_of result ≡ self.now }
    {
        self.first
    }
}
