//! Where a process mentions its labels.

ghost use Rattle.std.specs.Prelude.{◌≡◌, ◌++◌, flat_map, map, option_map, IfOk, OnOk};
ghost use Rattle.build_flow.specs.Beginnings.{beginnings};
ghost use Rattle.build_flow.specs.Joins.{joins_in};
ghost use Rattle.build_flow.specs.Listed.{beginning_value, beginnings_listed, mention_value, mentions_listed, texts};
ghost use Rattle.build_flow.specs.Mentions.{action_mentions, actions_mentions, beginning_mentions, ending_mentions, join_names, label_entries, label_mentions, otherwise_mentions, parts_mentions, statement_mentions, terminator_mentions, transition_mentions};
ghost use Rattle.build_flow.specs.Reach.{labels_in};
ghost use Rattle.sdl_tree.specs.Tree as tree;
ghost use Rattle.sdl_tree.specs.Views.{action_value, answer_part_value, ending_value, name_value, statement_value, terminator_value, transition_value};

use crate::beginnings::Beginning;
use build_names::{Faults, Names};
use sdl_lex::Place;
use sdl_tree::{
    Action, ActionStatement, AnswerPart, Name, Terminator, TerminatorStatement, Transition,
};
use std::alloc::{AllocError, Global};

/// A label of the text.
#[derive(Clone, Copy)]
pub enum Mention<'t> {
    /// It stands before a statement or a connection.
    Standing(&'t Name),
    /// A join names it.
    Joined(&'t Name),
}

/// The labels of these transitions, each with its place. The first of a name counts; that another is a Duplicate is
/// noted elsewhere.
pub fn labels_in<'t>(
    alloc: Global,
    beginnings: &[Beginning<'t>],
) -> Result<Names<'t, Place>, AllocError>
    ensures { IfOk result (λ names. names ≡ labels_in (beginnings_listed beginnings.now)) }
{
    let mentions = mentions_in(alloc, beginnings)?;
    labels_of(alloc, &mentions)
}

/// The names that joins of these transitions name, each as often as they do.
pub fn joins_in<'t>(
    alloc: Global,
    beginnings: &[Beginning<'t>],
) -> Result<Names<'t, usize>, AllocError>
    ensures { IfOk result (λ names. texts names ≡ joins_in (beginnings_listed beginnings.now)) }
{
    let mentions = mentions_in(alloc, beginnings)?;
    joins_of(alloc, &mentions)
}

/// Where these transitions mention labels, in the order of the text.
fn mentions_in<'t>(
    alloc: Global,
    beginnings: &[Beginning<'t>],
) -> Result<Vec<Mention<'t>>, AllocError>
    ensures { IfOk result (λ list. mentions_listed list.items ≡
        flat_map beginning_mentions (beginnings_listed beginnings.now)) }
{
    let mut list = Vec::new(alloc);
    for beginning in beginnings {
        add_beginning(&mut list, beginning)?;
    }
    Ok(list)
}

fn add_beginning<'t>(
    list: &mut Vec<Mention<'t>>,
    beginning: &Beginning<'t>,
) -> Result<(), AllocError>
    ensures { OnOk result (mentions_listed list.new.items ≡
        mentions_listed list.old.items ++ beginning_mentions (beginning_value beginning.now)) }
{
    if let Some(label) = beginning.label {
        list.push(Mention::Standing(label))?;
    }
    add_transition(list, beginning.transition)?;
    Ok(())
}

#[cycle(transition)]
fn add_transition<'t>(
    list: &mut Vec<Mention<'t>>,
    transition: &'t Transition,
) -> Result<(), AllocError>
    ensures { OnOk result (mentions_listed list.new.items ≡
        mentions_listed list.old.items ++ transition_mentions (transition_value transition.now)) }
{
    add_statements(list, &transition.actions)?;
    add_ending(list, &transition.terminator)?;
    Ok(())
}

#[cycle(transition)]
fn add_statements<'t>(
    list: &mut Vec<Mention<'t>>,
    statements: &'t [ActionStatement],
) -> Result<(), AllocError>
    ensures { OnOk result (mentions_listed list.new.items ≡
        mentions_listed list.old.items ++ actions_mentions (tree.actions_of (map statement_value statements.now))) }
{
    for statement in statements {
        add_statement(list, statement)?;
    }
    Ok(())
}

#[cycle(transition)]
fn add_statement<'t>(
    list: &mut Vec<Mention<'t>>,
    statement: &'t ActionStatement,
) -> Result<(), AllocError>
    ensures { OnOk result (mentions_listed list.new.items ≡
        mentions_listed list.old.items ++ statement_mentions (statement_value statement.now)) }
{
    add_label(list, &statement.label)?;
    add_action(list, &statement.action)?;
    Ok(())
}

#[cycle(transition)]
fn add_action<'t>(list: &mut Vec<Mention<'t>>, action: &'t Action) -> Result<(), AllocError>
    ensures { OnOk result (mentions_listed list.new.items ≡
        mentions_listed list.old.items ++ action_mentions (action_value action.now)) }
{
    if let Action::Decision {
        parts,
        otherwise,
        ..
    } = action
    {
        add_parts(list, parts)?;
        add_else(list, otherwise)?;
    }
    Ok(())
}

#[cycle(transition)]
fn add_parts<'t>(list: &mut Vec<Mention<'t>>, parts: &'t [AnswerPart]) -> Result<(), AllocError>
    ensures { OnOk result (mentions_listed list.new.items ≡
        mentions_listed list.old.items ++ parts_mentions (tree.parts_of (map answer_part_value parts.now))) }
{
    for part in parts {
        add_part(list, part)?;
    }
    Ok(())
}

#[cycle(transition)]
fn add_part<'t>(list: &mut Vec<Mention<'t>>, part: &'t AnswerPart) -> Result<(), AllocError>
    ensures { OnOk result (mentions_listed list.new.items ≡
        mentions_listed list.old.items ++ transition_mentions (answer_part_value part.now).transition) }
{
    add_transition(list, &part.transition)?;
    Ok(())
}

#[cycle(transition)]
fn add_else<'t>(
    list: &mut Vec<Mention<'t>>,
    otherwise: &'t Option<Transition>,
) -> Result<(), AllocError>
    ensures { OnOk result (mentions_listed list.new.items ≡
        mentions_listed list.old.items
        ++ otherwise_mentions (tree.else_of (option_map transition_value otherwise.now))) }
{
    if let Some(part) = otherwise {
        add_transition(list, part)?;
    }
    Ok(())
}

fn add_ending<'t>(
    list: &mut Vec<Mention<'t>>,
    ending: &'t Option<TerminatorStatement>,
) -> Result<(), AllocError>
    ensures { OnOk result (mentions_listed list.new.items ≡
        mentions_listed list.old.items ++ ending_mentions (option_map ending_value ending.now)) }
{
    match ending {
        None => Ok(()),
        Some(statement) => {
            add_label(list, &statement.label)?;
            add_terminator(list, &statement.terminator)
        }
    }
}

fn add_terminator<'t>(
    list: &mut Vec<Mention<'t>>,
    terminator: &'t Terminator,
) -> Result<(), AllocError>
    ensures { OnOk result (mentions_listed list.new.items ≡
        mentions_listed list.old.items ++ terminator_mentions (terminator_value terminator.now)) }
{
    if let Terminator::Join { label, .. } = terminator {
        list.push(Mention::Joined(label))?;
    }
    Ok(())
}

fn add_label<'t>(list: &mut Vec<Mention<'t>>, label: &'t Option<Name>) -> Result<(), AllocError>
    ensures { OnOk result (mentions_listed list.new.items ≡
        mentions_listed list.old.items ++ label_mentions (option_map name_value label.now)) }
{
    if let Some(label) = label {
        list.push(Mention::Standing(label))?;
    }
    Ok(())
}

/// The labels that stand, each with its place.
fn labels_of<'t>(alloc: Global, mentions: &[Mention<'t>]) -> Result<Names<'t, Place>, AllocError>
    ensures { IfOk result (λ names. names ≡ flat_map label_entries (mentions_listed mentions.now)) }
{
    let mut names = Names::new(alloc);
    for mention in mentions {
        add_standing(&mut names, *mention)?;
    }
    Ok(names)
}

fn add_standing<'t>(names: &mut Names<'t, Place>, mention: Mention<'t>) -> Result<(), AllocError>
    ensures { OnOk result (names.new ≡ names.old ++ label_entries (mention_value mention.entry)) }
{
    if let Mention::Standing(label) = mention {
        names.declare(label, label.place, &mut Faults::new())?;
    }
    Ok(())
}

/// The names that joins name, each as often as they do.
fn joins_of<'t>(alloc: Global, mentions: &[Mention<'t>]) -> Result<Names<'t, usize>, AllocError>
    ensures { IfOk result (λ names. texts names ≡ flat_map join_names (mentions_listed mentions.now)) }
{
    let mut names = Names::new(alloc);
    for mention in mentions {
        add_joined(&mut names, *mention)?;
    }
    Ok(names)
}

fn add_joined<'t>(names: &mut Names<'t, usize>, mention: Mention<'t>) -> Result<(), AllocError>
    ensures { OnOk result (texts names.new ≡ texts names.old ++ join_names (mention_value mention.entry)) }
{
    if let Mention::Joined(label) = mention {
        names.declare(label, 0, &mut Faults::new())?;
    }
    Ok(())
}
