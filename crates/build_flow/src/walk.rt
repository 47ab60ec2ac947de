//! Paths through transitions: which terminators they come to, and whether one runs off the end.

ghost use Rattle.std.specs.Prelude.{◌≡◌, ◌++◌, Option, map, option_map, IfOk, OnOk};
ghost use Rattle.build_flow.specs.Listed.{found_listed, turns_of};
ghost use Rattle.build_flow.specs.Reach.{is_place};
ghost use Rattle.build_flow.specs.Turns.{action_found, action_turn, actions_found, actions_turn, ending_found, ending_turn, entry_turn, found_in, otherwise_found, otherwise_turn, parts_found, parts_turn, sooner, statement_found, statement_turn, transition_found, transition_turn};
ghost use Rattle.sdl_tree.specs.Tree as tree;
ghost use Rattle.sdl_tree.specs.Views.{action_value, answer_part_value, ending_value, name_value, statement_value, terminator_value, transition_value};

use build_names::Names;
use sdl_lex::Place;
use sdl_tree::{
    Action, ActionStatement, AnswerPart, Name, Terminator, TerminatorStatement, Transition,
};
use std::alloc::AllocError;

/// The labels where paths enter, each in a turn.
#[derive(Clone, Copy)]
pub enum Entries<'a, 't> {
    /// Those with one of these names, each in the turn of its name.
    Named(&'a Names<'t, usize>),
    /// Of the labels of a process those to which a join with one of the names leads: each the first of its name.
    Led {
        labels: &'a Names<'t, Place>,
        names: &'a Names<'t, usize>,
    },
}

/// A terminator, and the soonest turn in which a path comes to it.
#[derive(Clone, Copy)]
pub struct Found<'t> {
    pub terminator: &'t Terminator,
    pub turn: usize,
}

impl<'a, 't> Entries<'a, 't> {
    /// The turn in which paths enter at a label, where one stands.
    pub fn entry(self, label: &Option<Name>) -> Option<usize>
        ensures { result ≡ entry_turn (turns_of self.entry) (option_map name_value label.now) }
    {
        match label {
            None => None,
            Some(label) => self.turn(label),
        }
    }

    /// The turn in which paths enter at a label.
    pub fn turn(self, label: &Name) -> Option<usize>
        ensures { result ≡ turns_of self.entry (name_value label.now) }
    {
        let text = label.text.as_str();
        match self {
            Entries::Named(names) => names.get(text),
            Entries::Led { labels, names } => {
                if is_place(label.place, labels.get(text)) {
                    names.get(text)
                } else {
                    None
                }
            }
        }
    }
}

fn is_place(place: Place, found: Option<Place>) -> bool
    ensures { result ≡ is_place place found }
{
    match found {
        None => false,
        Some(other) => place.line == other.line && place.column == other.column,
    }
}

/// The sooner of two turns, if there is one.
fn sooner(one: Option<usize>, other: Option<usize>) -> Option<usize>
    ensures { result ≡ sooner one other }
{
    match (one, other) {
        (None, _) => other,
        (Some(_), None) => one,
        (Some(first), Some(second)) => {
            if second < first {
                Some(second)
            } else {
                Some(first)
            }
        }
    }
}

/// Adds the terminators of a transition to which paths come, in the order of the text, and says in which turn one first
/// runs off its end. `comes` says in which turn one comes to its first statement.
#[cycle(transition)]
pub fn walk_transition<'t>(
    entries: Entries<'_, 't>,
    transition: &'t Transition,
    comes: Option<usize>,
    found: &mut Vec<Found<'t>>,
) -> Result<Option<usize>, AllocError>
    ensures turn { IfOk result (λ turn. turn
        ≡ transition_turn (turns_of entries.entry) (transition_value transition.now) comes) }
    ensures found { OnOk result (found_listed found.new.items ≡ found_listed found.old.items
        ++ transition_found (turns_of entries.entry) (transition_value transition.now) comes) }
{
    let comes_to_end = statements(entries, &transition.actions, comes, found)?;
    let passed = ending(entries, &transition.terminator, comes_to_end, found)?;
    Ok(passed)
}

#[cycle(transition)]
fn statements<'t>(
    entries: Entries<'_, 't>,
    statements: &'t [ActionStatement],
    comes: Option<usize>,
    found: &mut Vec<Found<'t>>,
) -> Result<Option<usize>, AllocError>
    ensures turn { IfOk result (λ turn. turn ≡ actions_turn (turns_of entries.entry)
        (tree.actions_of (map statement_value statements.now)) comes) }
    ensures found { OnOk result (found_listed found.new.items ≡ found_listed found.old.items
        ++ actions_found (turns_of entries.entry) (tree.actions_of (map statement_value statements.now)) comes) }
{
    let mut here = comes;
    for one in statements {
        here = statement(entries, one, here, found)?;
    }
    Ok(here)
}

#[cycle(transition)]
fn statement<'t>(
    entries: Entries<'_, 't>,
    statement: &'t ActionStatement,
    comes: Option<usize>,
    found: &mut Vec<Found<'t>>,
) -> Result<Option<usize>, AllocError>
    ensures turn { IfOk result (λ turn. turn
        ≡ statement_turn (turns_of entries.entry) (statement_value statement.now) comes) }
    ensures found { OnOk result (found_listed found.new.items ≡ found_listed found.old.items
        ++ statement_found (turns_of entries.entry) (statement_value statement.now) comes) }
{
    let here = sooner(comes, entries.entry(&statement.label));
    action(entries, &statement.action, here, found)
}

#[cycle(transition)]
fn action<'t>(
    entries: Entries<'_, 't>,
    action: &'t Action,
    comes: Option<usize>,
    found: &mut Vec<Found<'t>>,
) -> Result<Option<usize>, AllocError>
    ensures turn { IfOk result (λ turn. turn
        ≡ action_turn (turns_of entries.entry) (action_value action.now) comes) }
    ensures found { OnOk result (found_listed found.new.items ≡ found_listed found.old.items
        ++ action_found (turns_of entries.entry) (action_value action.now) comes) }
{
    match action {
        Action::Decision {
            parts,
            otherwise,
            ..
        } => {
            let by_part = answer_parts(entries, parts, comes, found)?;
            let by_else = else_part(entries, otherwise, comes, found)?;
            Ok(sooner(by_part, by_else))
        }
        _ => Ok(comes),
    }
}

#[cycle(transition)]
fn answer_parts<'t>(
    entries: Entries<'_, 't>,
    parts: &'t [AnswerPart],
    comes: Option<usize>,
    found: &mut Vec<Found<'t>>,
) -> Result<Option<usize>, AllocError>
    ensures turn { IfOk result (λ turn. turn ≡ parts_turn (turns_of entries.entry)
        (tree.parts_of (map answer_part_value parts.now)) comes) }
    ensures found { OnOk result (found_listed found.new.items ≡ found_listed found.old.items
        ++ parts_found (turns_of entries.entry) (tree.parts_of (map answer_part_value parts.now)) comes) }
{
    let mut soonest = None;
    for part in parts {
        let turn = answer_part(entries, part, comes, found)?;
        soonest = sooner(soonest, turn);
    }
    Ok(soonest)
}

#[cycle(transition)]
fn answer_part<'t>(
    entries: Entries<'_, 't>,
    part: &'t AnswerPart,
    comes: Option<usize>,
    found: &mut Vec<Found<'t>>,
) -> Result<Option<usize>, AllocError>
    ensures turn { IfOk result (λ turn. turn
        ≡ transition_turn (turns_of entries.entry) (answer_part_value part.now).transition comes) }
    ensures found { OnOk result (found_listed found.new.items ≡ found_listed found.old.items
        ++ transition_found (turns_of entries.entry) (answer_part_value part.now).transition comes) }
{
    walk_transition(entries, &part.transition, comes, found)
}

#[cycle(transition)]
fn else_part<'t>(
    entries: Entries<'_, 't>,
    otherwise: &'t Option<Transition>,
    comes: Option<usize>,
    found: &mut Vec<Found<'t>>,
) -> Result<Option<usize>, AllocError>
    ensures turn { IfOk result (λ turn. turn ≡ otherwise_turn (turns_of entries.entry)
        (tree.else_of (option_map transition_value otherwise.now)) comes) }
    ensures found { OnOk result (found_listed found.new.items ≡ found_listed found.old.items
        ++ otherwise_found (turns_of entries.entry) (tree.else_of (option_map transition_value otherwise.now)) comes) }
{
    match otherwise {
        None => Ok(None),
        Some(part) => walk_transition(entries, part, comes, found),
    }
}

fn ending<'t>(
    entries: Entries<'_, 't>,
    ending: &'t Option<TerminatorStatement>,
    comes: Option<usize>,
    found: &mut Vec<Found<'t>>,
) -> Result<Option<usize>, AllocError>
    ensures turn { IfOk result (λ turn. turn ≡ ending_turn (option_map ending_value ending.now) comes) }
    ensures found { OnOk result (found_listed found.new.items ≡ found_listed found.old.items
        ++ ending_found (turns_of entries.entry) (option_map ending_value ending.now) comes) }
{
    match ending {
        None => Ok(comes),
        Some(statement) => {
            let here = sooner(comes, entries.entry(&statement.label));
            add_found(found, &statement.terminator, here)?;
            Ok(None)
        }
    }
}

fn add_found<'t>(
    found: &mut Vec<Found<'t>>,
    terminator: &'t Terminator,
    comes: Option<usize>,
) -> Result<(), AllocError>
    ensures { OnOk result (found_listed found.new.items ≡
        found_listed found.old.items ++ found_in (terminator_value terminator.now) comes) }
{
    if let Some(turn) = comes {
        found.push(Found { terminator, turn })?;
    }
    Ok(())
}
