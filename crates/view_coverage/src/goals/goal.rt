//! What there is to cover.

use port_model::SignalId;
use sdl_lex::Place;
use sdl_system::{ProcessId, StateId};
use sdl_tree::Name;

/// What there is to cover in a specification.
#[derive(Drop)]
pub struct Goals<'t> {
    /// By the numbers of the processes.
    pub processes: Vec<ProcessGoals<'t>>,
    /// The answers of all decisions, in the order of the text. The part of an answer has its index here as its number.
    pub answers: Vec<AnswerGoal>,
}

/// The states of a process, and what they wait for.
#[derive(Drop)]
pub struct ProcessGoals<'t> {
    pub number: ProcessId,
    pub name: &'t Name,
    /// The word that names each state first, by the numbers of the states.
    pub states: Vec<&'t Name>,
    /// In the order of the text, and at one place in that of the states.
    pub stimuli: Vec<StimulusGoal>,
}

/// Something for which a state waits.
#[derive(Clone, Copy)]
pub struct StimulusGoal {
    pub place: Place,
    pub state: StateId,
    pub awaited: Awaited,
}

/// For what a state waits.
#[derive(Clone, Copy)]
pub enum Awaited {
    /// A signal or a timer that an input names.
    Signal(Urgency, SignalId),
    /// `input *`: each signal that the state doesn't name.
    Rest,
    /// The continuous signal of this number, counted from 1 in the state.
    Continuous(u32),
}

/// How an input takes its signals.
#[derive(Clone, Copy)]
pub enum Urgency {
    Plain,
    Priority,
}

/// A part of a decision: the answers that lead to it, or `else`.
#[derive(Drop)]
pub struct AnswerGoal {
    pub process: ProcessId,
    /// Where its parenthesis or its `else` is.
    pub place: Place,
    /// Where the word `decision` is.
    pub decision: Place,
    /// Its index among the parts of the decision.
    pub branch: u32,
    /// As the text has them, with one blank in place of blanks, comments and ends of lines.
    pub answers: String,
}
