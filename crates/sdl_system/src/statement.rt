//! Statements, as nodes of one table for each process: each has the place at which the flow goes on (Z.102:
//! transition).

ghost use Rattle.std.specs.Prelude.{◌≡◌};
ghost use Rattle.sdl_system.specs.Answer.{meets_one};
ghost use Rattle.sdl_system.specs.Table.{way_of};

use crate::answer::Answer;
use crate::expression::Expression;
use crate::id::{LabelId, NodeId, ProcessId, StateId, VariableId};
use port_model::{SignalId, Value};

/// A statement, and the node that comes next: after a decision the one behind its `enddecision`, after a join the one
/// at its label. None comes behind what ends a transition, nor behind a decision all of whose parts end.
#[derive(Drop)]
pub struct Node {
    pub statement: Statement,
    pub next: Option<NodeId>,
}

/// The statement of a node. One with a list counts once.
pub enum Statement {
    Task(Vec<Assignment>),
    Output(Output),
    Set(Vec<Setting>),
    Reset(Vec<TimerUse>),
    Create(Creation),
    Decision(Decision),
    /// Goes on at the label, which is the next node.
    Join(LabelId),
    NextState(StateId),
    /// To the state from which the transition began.
    SameState,
    Stop,
}

/// Written out, as that of a system is.
impl Drop for Statement {
    fn drop(self) {
        match self {
            Statement::Task(_)
            | Statement::Output(_)
            | Statement::Set(_)
            | Statement::Reset(_)
            | Statement::Create(_)
            | Statement::Decision(_)
            | Statement::Join(_)
            | Statement::NextState(_)
            | Statement::SameState
            | Statement::Stop => {}
        }
    }
}

/// `variable := value`.
#[derive(Drop)]
pub struct Assignment {
    pub variable: VariableId,
    pub value: Expression,
}

/// Signals that are sent, in their order.
#[derive(Drop)]
pub struct Output {
    pub signals: Vec<Sending>,
    pub to: Option<Destination>,
}

/// A signal that is sent, with its values.
#[derive(Drop)]
pub struct Sending {
    pub signal: SignalId,
    pub values: Vec<Expression>,
}

/// Where the signals of an output go.
#[derive(Drop)]
pub enum Destination {
    /// The living instance of the process with the least number.
    Process(ProcessId),
    /// The instance that the expression names.
    Pid(Expression),
}

/// A timer with its values.
#[derive(Drop)]
pub struct TimerUse {
    pub timer: SignalId,
    pub values: Vec<Expression>,
}

/// A timer that is set, and when it is due.
#[derive(Drop)]
pub struct Setting {
    pub timer: TimerUse,
    pub due: Due,
}

/// When a timer is due.
#[derive(Drop)]
pub enum Due {
    At(Expression),
    /// So many ticks from now: the timer's default duration.
    After(i64),
}

/// A process of which an instance is made, with the values of its parameters.
#[derive(Drop)]
pub struct Creation {
    pub process: ProcessId,
    pub values: Vec<Expression>,
}

/// A question, and where its answers lead. The first branch with an answer that the value meets is taken.
#[derive(Drop)]
pub struct Decision {
    pub question: Expression,
    pub branches: Vec<Branch>,
    /// Where `else` leads, where it stands.
    pub otherwise: Option<Way>,
}

impl Decision {
    /// The way that a value of the question takes. None where it meets no answer and there is no `else`.
    pub fn way(&self, value: Value) -> Option<Way>
        ensures { result ≡ way_of self.now value }
    {
        for branch in &self.branches {
            if branch.is_met(value) {
                return Some(branch.way);
            }
        }
        self.otherwise
    }
}

/// The answers of a decision that lead one way.
#[derive(Drop)]
pub struct Branch {
    pub answers: Vec<Answer>,
    pub way: Way,
}

impl Branch {
    /// Whether a value meets one of the answers.
    pub fn is_met(&self, value: Value) -> bool
        ensures { result ≡ meets_one value self.now.answers.items }
    {
        self.answers.iter().any(|answer| answer.is_met(value))
    }
}

/// The node at which a part of a decision begins: its own first one, or the one behind the decision where it has none.
/// None is there where the part has no statement and nothing stands behind the decision.
#[derive(Clone, Copy, PartialEq, Eq)]
pub struct Way(pub Option<NodeId>);
