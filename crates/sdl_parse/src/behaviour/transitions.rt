//! Transitions: actions with their labels, decisions, and what ends them.

ghost use Rattle.std.specs.Prelude.{◌≡◌, ◌≤◌, Some, map, option_map};
ghost use Rattle.sdl_tree.specs.Views.{action_value, answer_value, answer_part_value, ending_value, expr_value, name_value, next_state_value, statement_value, terminator_value, transition_value};
ghost use Rattle.sdl_parse.specs.Transitions as spec;
ghost use Rattle.parse_expressions.specs.Reading.{◌⊗◌, behind, expect, made};
ghost use Rattle.parse_expressions.specs.Reads.{Reads};
ghost use Rattle.parse_expressions.specs.Expressions.{expr};
ghost use Rattle.parse_expressions.specs.Parts as part_readings;
ghost use Rattle.sdl_tree.specs.declared.mark.Mark.TheVariants as mark;

use crate::behaviour::actions::{create, output, reset, task};
use crate::behaviour::answers::answer;
use crate::behaviour::clauses::set;
use crate::behaviour::optional::taken;
use crate::behaviour::place::Inside;
use parse_expressions::expressions::expression;
use parse_expressions::parts::end;
use parse_expressions::{Cursor, Fault, Perhaps, Wanted, enclosed, repeated};
use sdl_tree::{
    Action, ActionStatement, Answer, AnswerPart, Expression, Mark, Name, NextState, Spelling,
    Terminator, TerminatorStatement, Transition,
};
use std::alloc::Global;

impl Perhaps<AnswerPart> for Inside {
    ghost use Rattle.sdl_tree.specs.Tree as tree;
    ghost use Rattle.sdl_tree.specs.Views.{answer_part_value};
    ghost use Rattle.sdl_parse.specs.Transitions.{part, trans};

    ghost Node = { tree.Part };

    ghost value = { answer_part_value };

    ghost reads = { λ at. part at.depth (trans at.depth) };
}

/// `trans = {[NAME ":"] action} [[NAME ":"] terminator]`, in which `depth` parentheses and decisions may stand inside
/// each other.
#[cycle(transition)]
#[tactic(auto, unfolding(crate::specs::Transitions::steps_from), using(crate::proofs::TurnLemmas::turning))]
pub fn transition(
    alloc: Global,
    cursor: &mut Cursor<'_, '_>,
    depth: usize,
) -> Result<Transition, Fault>
    requires { depth ≤ 64 }
    ensures { Reads transition_value (spec.trans depth cursor.old) result cursor.new }
{
    let mut actions = Vec::new(alloc);
    for _turn in 0..cursor.left() {
        if !begins_statement(cursor) {
            return Ok(transition_with(actions, None));
        }
        let label = label(alloc, cursor)?;
        if begins_terminator(cursor) {
            return terminated(alloc, cursor, actions, label);
        }
        let action = action(alloc, cursor, depth)?;
        actions.push(ActionStatement { label, action })?;
    }
    Ok(transition_with(actions, None))
}

/// A terminator behind its label and the actions.
pub fn terminated(
    alloc: Global,
    cursor: &mut Cursor<'_, '_>,
    actions: Vec<ActionStatement>,
    label: Option<Name>,
) -> Result<Transition, Fault>
    ensures { let done = map statement_value actions.items in
        let named = option_map name_value label in
        let ended = made (λ last. spec.steps_with (done, Some (spec.ending_with named last))) spec.terminator in
        Reads transition_value (ended cursor.old) result cursor.new }
{
    let terminator = terminator(alloc, cursor)?;
    let ending = TerminatorStatement { label, terminator };
    Ok(transition_with(actions, Some(ending)))
}

/// The node, made apart so that its view stands in a contract.
#[tactic(auto, using(sdl_tree::proofs::ViewLemmas::steps_value))]
pub fn transition_with(
    actions: Vec<ActionStatement>,
    terminator: Option<TerminatorStatement>,
) -> Transition
    ensures { transition_value result ≡ spec.steps_with
        (map statement_value actions.items, option_map ending_value terminator) }
{
    Transition {
        actions,
        terminator,
    }
}

/// One of the actions.
#[cycle(transition)]
#[tactic(auto, unfolding(crate::specs::Transitions::action_of))]
pub fn action(alloc: Global, cursor: &mut Cursor<'_, '_>, depth: usize) -> Result<Action, Fault>
    requires { depth ≤ 64 }
    ensures { Reads action_value (spec.action depth cursor.old) result cursor.new }
{
    if cursor.sees(Mark::Task) {
        return task(alloc, cursor, depth);
    }
    if cursor.sees(Mark::Output) {
        return output(alloc, cursor, depth);
    }
    if cursor.sees(Mark::Set) {
        return set(alloc, cursor, depth);
    }
    if cursor.sees(Mark::Reset) {
        return reset(alloc, cursor, depth);
    }
    if cursor.sees(Mark::Create) {
        return create(alloc, cursor, depth);
    }
    if cursor.sees(Mark::Decision) {
        return decision(alloc, cursor, depth);
    }
    Err(Fault::Expected(Wanted::Action))
}

/// A decision, where as many parentheses and decisions may stand inside each other.
#[cycle(transition)]
#[tactic(auto, using(crate::proofs::TurnLemmas::decision_none, crate::proofs::TurnLemmas::decision_inside))]
pub fn decision(alloc: Global, cursor: &mut Cursor<'_, '_>, depth: usize) -> Result<Action, Fault>
    requires { depth ≤ 64 }
    ensures { Reads action_value (spec.decision depth cursor.old) result cursor.new }
{
    if depth == 0 {
        return Err(Fault::TooDeep);
    }
    decision_around(alloc, cursor, depth - 1)
}

/// `"decision" expr end {"(" answer {"," answer} ")" ":" trans} ["else" ":" trans] "enddecision" end`, where as many
/// parentheses and decisions may stand inside it.
#[cycle(transition)]
#[tactic(auto, unfolding(crate::specs::Transitions::decision_of))]
pub fn decision_around(
    alloc: Global,
    cursor: &mut Cursor<'_, '_>,
    depth: usize,
) -> Result<Action, Fault>
    requires { depth ≤ 64 }
    ensures { Reads action_value (spec.decision_of depth (spec.trans depth) cursor.old) result cursor.new }
{
    let (word, question) = asked(alloc, cursor, depth)?;
    let parts = repeated(alloc, cursor, Inside { depth }, part)?;
    let otherwise = otherwise(alloc, cursor, depth)?;
    decision_closed(cursor, word, question, parts, otherwise)
}

/// `"decision" expr end`
pub fn asked(
    alloc: Global,
    cursor: &mut Cursor<'_, '_>,
    depth: usize,
) -> Result<(Spelling, Expression), Fault>
    requires { depth ≤ 64 }
    ensures { Reads (λ asked. (asked.0, expr_value asked.1))
        ((expect mark.Decision ⊗ part_readings.ended (expr depth)) cursor.old) result cursor.new }
{
    let word = cursor.expect(Mark::Decision)?;
    let question = expression(alloc, cursor, depth)?;
    end(cursor)?;
    Ok((word, question))
}

/// `"enddecision" end` behind all else of a decision.
pub fn decision_closed(
    cursor: &mut Cursor<'_, '_>,
    word: Spelling,
    question: Expression,
    parts: Vec<AnswerPart>,
    otherwise: Option<Transition>,
) -> Result<Action, Fault>
    ensures { Reads action_value (made (λ _. spec.decision_with
        (word, (expr_value question, (map answer_part_value parts.items, option_map transition_value otherwise))))
        (behind mark.EndDecision part_readings.end) cursor.old) result cursor.new }
{
    cursor.expect(Mark::EndDecision)?;
    end(cursor)?;
    Ok(decision_with(word, question, parts, otherwise))
}

/// The node, made apart so that its view stands in a contract.
pub fn decision_with(
    word: Spelling,
    question: Expression,
    parts: Vec<AnswerPart>,
    otherwise: Option<Transition>,
) -> Action
    ensures { action_value result ≡ spec.decision_with
        (word, (expr_value question, (map answer_part_value parts.items, option_map transition_value otherwise))) }
{
    Action::Decision {
        word,
        question,
        parts,
        otherwise,
    }
}

/// `"(" answer {"," answer} ")" ":" trans`, if it stands next.
#[cycle(transition)]
#[tactic(auto, unfolding(crate::specs::Transitions::part))]
pub fn part(
    alloc: Global,
    cursor: &mut Cursor<'_, '_>,
    at: Inside,
) -> Result<Option<AnswerPart>, Fault>
    requires { at.depth ≤ 64 }
    ensures { Reads (option_map answer_part_value)
        (spec.part at.depth (spec.trans at.depth) cursor.old) result cursor.new }
{
    if !cursor.sees(Mark::Open) {
        return Ok(None);
    }
    let answers = enclosed(alloc, cursor, at, answer)?;
    cursor.expect(Mark::Colon)?;
    let transition = transition(alloc, cursor, at.depth)?;
    Ok(Some(part_with(answers, transition)))
}

/// The node, made apart so that its view stands in a contract.
#[tactic(auto, using(sdl_tree::proofs::ViewLemmas::answered_value))]
pub fn part_with(answers: Vec<Answer>, transition: Transition) -> AnswerPart
    ensures { answer_part_value result ≡ spec.part_with (map answer_value answers.items, transition_value transition) }
{
    AnswerPart {
        answers,
        transition,
    }
}

/// `["else" ":" trans]`
#[cycle(transition)]
#[tactic(auto, unfolding(crate::specs::Transitions::otherwise))]
pub fn otherwise(
    alloc: Global,
    cursor: &mut Cursor<'_, '_>,
    depth: usize,
) -> Result<Option<Transition>, Fault>
    requires { depth ≤ 64 }
    ensures { Reads (option_map transition_value) (spec.otherwise (spec.trans depth) cursor.old) result cursor.new }
{
    match taken(cursor, Mark::Else) {
        None => Ok(None),
        Some(_) => {
            cursor.expect(Mark::Colon)?;
            let transition = transition(alloc, cursor, depth)?;
            Ok(Some(transition))
        }
    }
}

/// Whether a label, an action or a terminator stands next.
#[tactic(auto, unfolding(crate::specs::Transitions::begins_statement))]
pub fn begins_statement(cursor: &Cursor<'_, '_>) -> bool
    ensures { result ≡ spec.begins_statement cursor.now }
{
    cursor.sees_name() || begins_action(cursor) || begins_terminator(cursor)
}

/// Whether an action stands next.
#[tactic(auto, unfolding(crate::specs::Transitions::begins_action))]
fn begins_action(cursor: &Cursor<'_, '_>) -> bool
    ensures { result ≡ spec.begins_action cursor.now }
{
    cursor.sees(Mark::Task)
        || cursor.sees(Mark::Output)
        || cursor.sees(Mark::Set)
        || cursor.sees(Mark::Reset)
        || cursor.sees(Mark::Create)
        || cursor.sees(Mark::Decision)
}

/// Whether a terminator stands next.
#[tactic(auto, unfolding(crate::specs::Transitions::begins_terminator))]
pub fn begins_terminator(cursor: &Cursor<'_, '_>) -> bool
    ensures { result ≡ spec.begins_terminator cursor.now }
{
    cursor.sees(Mark::NextState) || cursor.sees(Mark::Stop) || cursor.sees(Mark::Join)
}

/// `[NAME ":"]`
#[tactic(auto, unfolding(crate::specs::Transitions::label))]
pub fn label(alloc: Global, cursor: &mut Cursor<'_, '_>) -> Result<Option<Name>, Fault>
    ensures { Reads (option_map name_value) (spec.label cursor.old) result cursor.new }
{
    if !cursor.sees_name() {
        return Ok(None);
    }
    let name = cursor.name(alloc)?;
    cursor.expect(Mark::Colon)?;
    Ok(Some(name))
}

/// `terminator = "nextstate" ("-" | NAME) end | "stop" end | "join" NAME end`
#[tactic(auto, unfolding(crate::specs::Transitions::terminator))]
pub fn terminator(alloc: Global, cursor: &mut Cursor<'_, '_>) -> Result<Terminator, Fault>
    ensures { Reads terminator_value (spec.terminator cursor.old) result cursor.new }
{
    if cursor.sees(Mark::NextState) {
        return next(alloc, cursor);
    }
    if cursor.sees(Mark::Stop) {
        return stop(cursor);
    }
    join(alloc, cursor)
}

/// `"nextstate" ("-" | NAME) end`
#[tactic(auto, unfolding(crate::specs::Transitions::next))]
fn next(alloc: Global, cursor: &mut Cursor<'_, '_>) -> Result<Terminator, Fault>
    ensures { Reads terminator_value (spec.next cursor.old) result cursor.new }
{
    let word = cursor.expect(Mark::NextState)?;
    let state = next_state(alloc, cursor)?;
    end(cursor)?;
    Ok(Terminator::NextState { word, state })
}

/// `"-" | NAME`
#[tactic(auto, unfolding(crate::specs::Transitions::next_state))]
fn next_state(alloc: Global, cursor: &mut Cursor<'_, '_>) -> Result<NextState, Fault>
    ensures { Reads next_state_value (spec.next_state cursor.old) result cursor.new }
{
    match taken(cursor, Mark::Minus) {
        None => Ok(NextState::Named(cursor.name(alloc)?)),
        Some(word) => Ok(NextState::Same(word)),
    }
}

/// `"stop" end`
#[tactic(auto, unfolding(crate::specs::Transitions::stop))]
fn stop(cursor: &mut Cursor<'_, '_>) -> Result<Terminator, Fault>
    ensures { Reads terminator_value (spec.stop cursor.old) result cursor.new }
{
    let word = cursor.expect(Mark::Stop)?;
    end(cursor)?;
    Ok(Terminator::Stop { word })
}

/// `"join" NAME end`
#[tactic(auto, unfolding(crate::specs::Transitions::join))]
fn join(alloc: Global, cursor: &mut Cursor<'_, '_>) -> Result<Terminator, Fault>
    ensures { Reads terminator_value (spec.join cursor.old) result cursor.new }
{
    let word = cursor.expect(Mark::Join)?;
    let label = cursor.name(alloc)?;
    end(cursor)?;
    Ok(Terminator::Join { word, label })
}
