//! Transitions: actions, decisions and what ends them.

ghost use Rattle.std.specs.Prelude.{[], ◌∷◌, OnOk, map, option_map};
ghost use Rattle.sdl_tree.specs.Canonical.{assignment_words, destination_words, clause_words, keys_words, answer_words, next_state_words, terminator_words, ending_words, transition_words, actions_words, action_words, parts_words, otherwise_words};
ghost use Rattle.sdl_tree.specs.Erased.{erased_assignment, erased_destination, erased_clause, erased_applied, erased_answer, erased_next_state, erased_terminator, erased_ending, erased_transition, erased_actions, erased_action, erased_parts, erased_otherwise};
ghost use Rattle.sdl_tree.specs.Tree as tree;
ghost use Rattle.sdl_tree.specs.Views.{assignment_value, destination_value, clause_value, group_value, answer_value, next_state_value, terminator_value, ending_value, transition_value, statement_value, action_value, answer_part_value};
ghost use Rattle.sdl_print.specs.Form.{written_as};
ghost use Rattle.sdl_print.specs.Wrote.{Wrote};

use crate::canonical::{Canonical, optional, optional_before, separated};
use crate::text::Text;
use sdl_tree::{
    Action, ActionStatement, Answer, AnswerPart, Assignment, Destination, Mark, NextState,
    ResetGroup, SetClause, Terminator, TerminatorStatement, Transition,
};
use std::alloc::AllocError;

/// `{[NAME ":"] action} [[NAME ":"] terminator]`
impl Canonical for Transition {
    ghost form = { written_as transition_value erased_transition transition_words };

    fn write(&self, text: &mut Text) -> Result<(), AllocError> {
        transition(text, self)
    }
}

#[cycle(transition)]
fn transition(text: &mut Text, transition: &Transition) -> Result<(), AllocError>
    ensures { OnOk result (Wrote text.old text.new
        (transition_words (erased_transition (transition_value transition.now)))) }
{
    statements(text, &transition.actions)?;
    optional(text, &transition.terminator)
}

#[cycle(transition)]
fn statements(text: &mut Text, statements: &[ActionStatement]) -> Result<(), AllocError>
    ensures { OnOk result (Wrote text.old text.new
        (actions_words (erased_actions (tree.actions_of (map statement_value statements.now))))) }
{
    for statement in statements {
        optional_before(text, &statement.label, Mark::Colon)?;
        action(text, &statement.action)?;
    }
    Ok(())
}

#[cycle(transition)]
fn action(text: &mut Text, action: &Action) -> Result<(), AllocError>
    ensures { OnOk result (Wrote text.old text.new (action_words (erased_action (action_value action.now)))) }
{
    match action {
        Action::Task { assignments, .. } => {
            text.mark(Mark::Task)?;
            separated(text, assignments)?;
            text.mark(Mark::Semicolon)
        }
        Action::Output {
            outputs,
            destination,
            ..
        } => {
            text.mark(Mark::Output)?;
            separated(text, outputs)?;
            optional(text, destination)?;
            text.mark(Mark::Semicolon)
        }
        Action::Set { clauses, .. } => {
            text.mark(Mark::Set)?;
            separated(text, clauses)?;
            text.mark(Mark::Semicolon)
        }
        Action::Reset { groups, .. } => {
            text.mark(Mark::Reset)?;
            separated(text, groups)?;
            text.mark(Mark::Semicolon)
        }
        Action::Create { process, .. } => {
            text.mark(Mark::Create)?;
            process.write(text)?;
            text.mark(Mark::Semicolon)
        }
        Action::Decision {
            question,
            parts,
            otherwise: other,
            ..
        } => {
            text.mark(Mark::Decision)?;
            question.write(text)?;
            text.mark(Mark::Semicolon)?;
            answer_parts(text, parts)?;
            otherwise(text, other)?;
            text.mark(Mark::EndDecision)?;
            text.mark(Mark::Semicolon)
        }
    }
}

/// The answers of a decision with their transitions.
#[cycle(transition)]
fn answer_parts(text: &mut Text, parts: &[AnswerPart]) -> Result<(), AllocError>
    ensures { OnOk result (Wrote text.old text.new
        (parts_words (erased_parts (tree.parts_of (map answer_part_value parts.now))))) }
{
    for part in parts {
        answer_part(text, part)?;
    }
    Ok(())
}

#[cycle(transition)]
fn answer_part(text: &mut Text, part: &AnswerPart) -> Result<(), AllocError>
    ensures { OnOk result (Wrote text.old text.new
        (parts_words (erased_parts (tree.parts_of (answer_part_value part.now ∷ []))))) }
{
    text.mark(Mark::Open)?;
    separated(text, &part.answers)?;
    text.mark(Mark::Close)?;
    text.mark(Mark::Colon)?;
    transition(text, &part.transition)
}

#[cycle(transition)]
fn otherwise(text: &mut Text, otherwise: &Option<Transition>) -> Result<(), AllocError>
    ensures { OnOk result (Wrote text.old text.new
        (otherwise_words (erased_otherwise (tree.else_of (option_map transition_value otherwise.now))))) }
{
    match otherwise {
        None => Ok(()),
        Some(steps) => {
            text.mark(Mark::Else)?;
            text.mark(Mark::Colon)?;
            transition(text, steps)
        }
    }
}

/// `NAME ":=" expr`
impl Canonical for Assignment {
    ghost form = { written_as assignment_value erased_assignment assignment_words };

    fn write(&self, text: &mut Text) -> Result<(), AllocError> {
        self.variable.write(text)?;
        text.mark(Mark::Assign)?;
        self.value.write(text)
    }
}

/// `"to" expr`
impl Canonical for Destination {
    ghost form = { written_as destination_value erased_destination destination_words };

    fn write(&self, text: &mut Text) -> Result<(), AllocError> {
        text.mark(Mark::To)?;
        self.value.write(text)
    }
}

/// `"(" [expr ","] NAME [args] ")"`
impl Canonical for SetClause {
    ghost form = { written_as clause_value erased_clause clause_words };

    fn write(&self, text: &mut Text) -> Result<(), AllocError> {
        text.mark(Mark::Open)?;
        optional_before(text, &self.time, Mark::Comma)?;
        self.timer.write(text)?;
        text.mark(Mark::Close)
    }
}

/// `"(" NAME [args] {"," NAME [args]} ")"`
impl Canonical for ResetGroup {
    ghost form = { written_as group_value (map erased_applied) keys_words };

    fn write(&self, text: &mut Text) -> Result<(), AllocError> {
        text.mark(Mark::Open)?;
        separated(text, &self.timers)?;
        text.mark(Mark::Close)
    }
}

/// `expr | expr ":" expr`, or an operator and `expr`
impl Canonical for Answer {
    ghost form = { written_as answer_value erased_answer answer_words };

    fn write(&self, text: &mut Text) -> Result<(), AllocError> {
        match self {
            Answer::Value(value) => value.write(text),
            Answer::Range { first, last } => {
                first.write(text)?;
                text.mark(Mark::Colon)?;
                last.write(text)
            }
            Answer::Compared {
                operator,
                value,
                ..
            } => {
                text.mark(operator.mark())?;
                value.write(text)
            }
        }
    }
}

/// `[NAME ":"] terminator`
impl Canonical for TerminatorStatement {
    ghost form = { written_as ending_value erased_ending ending_words };

    fn write(&self, text: &mut Text) -> Result<(), AllocError> {
        optional_before(text, &self.label, Mark::Colon)?;
        self.terminator.write(text)
    }
}

/// `"nextstate" ("-" | NAME) ";" | "stop" ";" | "join" NAME ";"`
impl Canonical for Terminator {
    ghost form = { written_as terminator_value erased_terminator terminator_words };

    fn write(&self, text: &mut Text) -> Result<(), AllocError> {
        match self {
            Terminator::NextState { state, .. } => {
                text.mark(Mark::NextState)?;
                state.write(text)?;
                text.mark(Mark::Semicolon)
            }
            Terminator::Stop { .. } => {
                text.mark(Mark::Stop)?;
                text.mark(Mark::Semicolon)
            }
            Terminator::Join { label, .. } => {
                text.mark(Mark::Join)?;
                label.write(text)?;
                text.mark(Mark::Semicolon)
            }
        }
    }
}

/// `"-" | NAME`
impl Canonical for NextState {
    ghost form = { written_as next_state_value erased_next_state next_state_words };

    fn write(&self, text: &mut Text) -> Result<(), AllocError> {
        match self {
            NextState::Same(_) => text.mark(Mark::Minus),
            NextState::Named(name) => name.write(text),
        }
    }
}
