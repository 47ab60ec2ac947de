//! What there is to cover in a specification, each with its place in the text.
//!
//! In each process these are its states, what each state waits for, and the answers of each decision. `goals_of` lists
//! them in the order of the text. A stimulus is listed once for each state that it is in, also if the states are a list
//! or an asterisk. `input *` is one stimulus, whatever it stands for. What a state saves is not to be covered.
//!
//! The contract of `goals_of` says exactly which states and stimuli are listed, with their places, by the tree. No
//! contract speaks of answers: `test_tool` compares them with lists by hand.

mod all;
mod answer_list;
mod goal;
mod goal_list;
mod part_states;
mod scan;
mod stimulus_list;

pub use all::goals_of;
pub use goal::{AnswerGoal, Awaited, Goals, ProcessGoals, StimulusGoal, Urgency};
