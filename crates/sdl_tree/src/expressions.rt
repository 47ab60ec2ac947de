//! Expressions.

ghost use Rattle.std.specs.Prelude.{◌≡◌};
ghost use Rattle.sdl_tree.specs.Spells.Expressions as grammar;

use crate::mark::Mark;
use crate::name::{Name, Number, Spelling};

/// An expression. Operators of one level are kept in one chain, and not one inside the other, so that nothing but
/// parentheses nests: a tree is never deeper than its parentheses.
#[cycle(expression)]
#[derive(Drop)]
pub enum Expression {
    Number(Number),
    /// A variable, a parameter or a synonym.
    Name(Name),
    Keyword {
        value: KeywordValue,
        word: Spelling,
    },
    /// Whether a timer runs that was set with these values.
    Active {
        word: Spelling,
        timer: Name,
        values: Vec<Expression>,
    },
    Parenthesized {
        parenthesis: Spelling,
        inner: Box<Expression>,
    },
    Unary {
        operator: UnaryOperator,
        word: Spelling,
        operand: Box<Expression>,
    },
    Chain(Box<Chain>),
}

/// Operands joined by operators of one level, which group to the left. In the tree of a text there is an operator,
/// and each operand is of a stronger level.
#[cycle(expression)]
#[derive(Drop)]
pub struct Chain {
    pub first: Expression,
    pub rest: Vec<Link>,
}

/// An operator and the operand behind it.
#[cycle(expression)]
#[derive(Drop)]
pub struct Link {
    pub operator: Operator,
    pub word: Spelling,
    pub operand: Expression,
}

/// The operands that are one keyword: literals, the time, and the processes that an instance knows of.
#[derive(Clone, Copy, PartialEq, Eq)]
pub enum KeywordValue {
    True,
    False,
    Null,
    Now,
    SelfPid,
    Parent,
    Offspring,
    Sender,
}

impl KeywordValue {
    /// Its keyword.
    pub fn mark(self) -> Mark
        ensures { result ≡ grammar.value_mark self }
    {
        match self {
            KeywordValue::True => Mark::True,
            KeywordValue::False => Mark::False,
            KeywordValue::Null => Mark::Null,
            KeywordValue::Now => Mark::Now,
            KeywordValue::SelfPid => Mark::SelfPid,
            KeywordValue::Parent => Mark::Parent,
            KeywordValue::Offspring => Mark::Offspring,
            KeywordValue::Sender => Mark::Sender,
        }
    }
}

/// The operators before an operand.
#[derive(Clone, Copy, PartialEq, Eq)]
pub enum UnaryOperator {
    Minus,
    Not,
}

impl UnaryOperator {
    /// Its keyword or mark.
    pub fn mark(self) -> Mark
        ensures { result ≡ grammar.unary_mark self }
    {
        match self {
            UnaryOperator::Minus => Mark::Minus,
            UnaryOperator::Not => Mark::Not,
        }
    }
}

/// The operators between two operands, from the weakest level to the strongest.
#[derive(Clone, Copy, PartialEq, Eq)]
pub enum Operator {
    Implies,

    Or,
    Xor,

    And,

    Equal,
    NotEqual,
    Less,
    LessOrEqual,
    Greater,
    GreaterOrEqual,

    Plus,
    Minus,

    Times,
    Divide,
    Mod,
    Rem,
}

impl Operator {
    /// Its keyword or mark.
    pub fn mark(self) -> Mark
        ensures { result ≡ grammar.operator_mark self }
    {
        match self {
            Operator::Implies => Mark::Implies,
            Operator::Or => Mark::Or,
            Operator::Xor => Mark::Xor,
            Operator::And => Mark::And,
            Operator::Equal => Mark::Equal,
            Operator::NotEqual => Mark::NotEqual,
            Operator::Less => Mark::Less,
            Operator::LessOrEqual => Mark::LessOrEqual,
            Operator::Greater => Mark::Greater,
            Operator::GreaterOrEqual => Mark::GreaterOrEqual,
            Operator::Plus => Mark::Plus,
            Operator::Minus => Mark::Minus,
            Operator::Times => Mark::Asterisk,
            Operator::Divide => Mark::Slash,
            Operator::Mod => Mark::Mod,
            Operator::Rem => Mark::Rem,
        }
    }

    /// How loosely it binds its operands: a primary has 0, a unary operator 1, and the weakest operator 7.
    pub fn looseness(self) -> usize
        ensures { result ≡ grammar.looseness self }
    {
        match self {
            Operator::Implies => 7,
            Operator::Or | Operator::Xor => 6,
            Operator::And => 5,
            Operator::Equal
            | Operator::NotEqual
            | Operator::Less
            | Operator::LessOrEqual
            | Operator::Greater
            | Operator::GreaterOrEqual => 4,
            Operator::Plus | Operator::Minus => 3,
            Operator::Times | Operator::Divide | Operator::Mod | Operator::Rem => 2,
        }
    }
}

/// A name with the values in parentheses behind it: a signal that is sent, a timer, or a process that is created.
/// The list is empty where no parentheses stand.
#[derive(Drop)]
pub struct Applied {
    pub name: Name,
    pub values: Vec<Expression>,
}
