//! States, transitions and what begins them.

use crate::definitions::SignalListItem;
use crate::expressions::{Applied, Expression, Operator};
use crate::name::{Name, Number, Spelling};

/// The start transition, with its word.
#[derive(Drop)]
pub struct Start {
    pub word: Spelling,
    pub transition: Transition,
}

/// A part of the body of a process after the start: a state part or a free action.
pub enum BodyPart {
    State(StatePart),
    FreeAction(FreeAction),
}

/// Written out, as that of a tree is.
impl Drop for BodyPart {
    fn drop(self) {
        match self {
            BodyPart::State(_) | BodyPart::FreeAction(_) => {}
        }
    }
}

/// One `state`, with the states that it is a part of. Several parts may name one state.
#[derive(Drop)]
pub struct StatePart {
    pub states: States,
    pub stimuli: Vec<Stimulus>,
}

/// The states that a part belongs to.
#[derive(Drop)]
pub enum States {
    Named(Vec<Name>),
    /// `*`: all states but some. None are left out where no parentheses stand.
    All {
        asterisk: Spelling,
        except: Vec<Name>,
    },
}

/// A stimulus of a state part, for which it waits or which it saves.
#[derive(Drop)]
pub enum Stimulus {
    Input(InputPart),
    Priority(PriorityInput),
    Save(SavePart),
    Continuous(ContinuousSignal),
}

/// Signals that begin one transition, with the word `input` and the enabling condition, where one stands.
#[derive(Drop)]
pub struct InputPart {
    pub word: Spelling,
    pub inputs: Inputs,
    pub condition: Option<EnablingCondition>,
    pub transition: Transition,
}

/// The condition under which an input is taken, with the word `provided`.
#[derive(Drop)]
pub struct EnablingCondition {
    pub word: Spelling,
    pub condition: Expression,
}

/// The signals of an input.
#[derive(Drop)]
pub enum Inputs {
    Listed(Vec<Input>),
    /// `*`: each signal that the state doesn't name.
    All(Spelling),
}

/// Signals of priority that begin one transition, with the word `priority`.
#[derive(Drop)]
pub struct PriorityInput {
    pub word: Spelling,
    pub inputs: Vec<Input>,
    pub transition: Transition,
}

/// A signal and the variables that take its values. The list is empty where no parentheses stand; else it has a
/// place for each value, and a place without a variable drops its value.
#[derive(Drop)]
pub struct Input {
    pub signal: Name,
    pub variables: Vec<Option<Name>>,
}

/// Signals that wait, with the word `save`.
#[derive(Drop)]
pub struct SavePart {
    pub word: Spelling,
    pub saved: Saved,
}

/// The signals of a save.
#[derive(Drop)]
pub enum Saved {
    Listed(Vec<SignalListItem>),
    /// `*`: each signal that the state doesn't name.
    All(Spelling),
}

/// A transition that begins where a condition holds and no signal is to be taken, with the word `provided`. A
/// smaller priority comes first; without one a continuous signal comes last.
#[derive(Drop)]
pub struct ContinuousSignal {
    pub word: Spelling,
    pub condition: Expression,
    pub priority: Option<Number>,
    pub transition: Transition,
}

/// A labelled transition that joins lead to, with the word `connection`.
#[derive(Drop)]
pub struct FreeAction {
    pub word: Spelling,
    pub label: Name,
    pub transition: Transition,
}

/// Actions in the order of the text, and what ends them, where something does.
#[cycle(transition)]
#[derive(Drop)]
pub struct Transition {
    pub actions: Vec<ActionStatement>,
    pub terminator: Option<TerminatorStatement>,
}

/// An action with its label, where one stands.
#[cycle(transition)]
#[derive(Drop)]
pub struct ActionStatement {
    pub label: Option<Name>,
    pub action: Action,
}

/// A statement that the transition goes on after.
#[cycle(transition)]
#[derive(Drop)]
pub enum Action {
    Task {
        word: Spelling,
        assignments: Vec<Assignment>,
    },
    Output {
        word: Spelling,
        outputs: Vec<Applied>,
        destination: Option<Destination>,
    },
    Set {
        word: Spelling,
        clauses: Vec<SetClause>,
    },
    /// Timers by their parentheses: each list is one pair.
    Reset {
        word: Spelling,
        groups: Vec<ResetGroup>,
    },
    Create {
        word: Spelling,
        process: Applied,
    },
    Decision {
        word: Spelling,
        question: Expression,
        parts: Vec<AnswerPart>,
        otherwise: Option<Transition>,
    },
}

/// Where the signals of an output go, with the word `to`.
#[derive(Drop)]
pub struct Destination {
    pub word: Spelling,
    pub value: Expression,
}

/// `variable := value`.
#[derive(Drop)]
pub struct Assignment {
    pub variable: Name,
    pub value: Expression,
}

/// A timer that is set, with the time at which it is due. Without a time its default duration counts.
#[derive(Drop)]
pub struct SetClause {
    pub time: Option<Expression>,
    pub timer: Applied,
}

/// The timers of one pair of parentheses in a reset.
#[derive(Drop)]
pub struct ResetGroup {
    pub timers: Vec<Applied>,
}

/// The answers of a decision that lead to one transition.
#[cycle(transition)]
#[derive(Drop)]
pub struct AnswerPart {
    pub answers: Vec<Answer>,
    pub transition: Transition,
}

/// An answer of a decision: the values with which the value of the question is compared.
#[derive(Drop)]
pub enum Answer {
    Value(Expression),
    /// The values from the first to the last, both among them.
    Range {
        first: Expression,
        last: Expression,
    },
    /// The values that stand in this order to the given one.
    Compared {
        operator: Operator,
        word: Spelling,
        value: Expression,
    },
}

/// A terminator with its label, where one stands.
#[derive(Drop)]
pub struct TerminatorStatement {
    pub label: Option<Name>,
    pub terminator: Terminator,
}

/// The end of a transition: a next state, a stop or a join.
#[derive(Drop)]
pub enum Terminator {
    NextState { word: Spelling, state: NextState },
    Stop { word: Spelling },
    Join { word: Spelling, label: Name },
}

/// The state that a transition leads to.
#[derive(Drop)]
pub enum NextState {
    /// `-`: the state from which the transition began.
    Same(Spelling),
    Named(Name),
}
