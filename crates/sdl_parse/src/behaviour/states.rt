//! The start of a process, its states and its connections.

ghost use Rattle.std.specs.Prelude.{◌≡◌, ◌≤◌, map, option_map, string_bytes};
ghost use Rattle.std.specs.List.{list_any};
ghost use Rattle.std.specs.Str.{bytes_eq};
ghost use Rattle.sdl_tree.specs.Views.{body_part_value, name_value, start_value, states_value};
ghost use Rattle.parse_expressions.specs.Reads.{Reads};
ghost use Rattle.sdl_parse.specs.States as spec;

use crate::behaviour::optional::taken;
use crate::behaviour::place::Inside;
use crate::behaviour::stimuli::stimulus;
use crate::behaviour::transitions::transition;
use parse_expressions::parts::{end, end_name, name, names};
use parse_expressions::place::At;
use parse_expressions::{
    Cursor, Fault, Perhaps, PlacedWord, Wanted, Word, in_parentheses, repeated,
};
use sdl_tree::{BodyPart, FreeAction, Mark, Name, Start, StatePart, States};
use std::alloc::Global;

impl Perhaps<BodyPart> for Inside {
    ghost use Rattle.sdl_tree.specs.Tree as tree;
    ghost use Rattle.sdl_tree.specs.Views.{body_part_value};
    ghost use Rattle.sdl_parse.specs.States.{body_part};

    ghost Node = { tree.BodyPart };

    ghost value = { body_part_value };

    ghost reads = { λ at. body_part at.depth };
}

/// `start = "start" end trans`
#[tactic(auto, unfolding(crate::specs::States::start))]
pub fn start(alloc: Global, cursor: &mut Cursor<'_, '_>, depth: usize) -> Result<Start, Fault>
    requires { depth ≤ 64 }
    ensures { Reads start_value (spec.start depth cursor.old) result cursor.new }
{
    let word = cursor.expect(Mark::Start)?;
    end(cursor)?;
    let transition = transition(alloc, cursor, depth)?;
    Ok(Start { word, transition })
}

/// `state | connection`, if one stands next.
#[tactic(auto, unfolding(crate::specs::States::body_part, crate::specs::States::begins_body_part))]
pub fn body_part(
    alloc: Global,
    cursor: &mut Cursor<'_, '_>,
    at: Inside,
) -> Result<Option<BodyPart>, Fault>
    requires { at.depth ≤ 64 }
    ensures { Reads (option_map body_part_value) (spec.body_part at.depth cursor.old) result cursor.new }
{
    if cursor.sees(Mark::State) {
        let part = state_part(alloc, cursor, at.depth)?;
        return Ok(Some(part));
    }
    if cursor.sees(Mark::Connection) {
        let part = connection(alloc, cursor, at.depth)?;
        return Ok(Some(part));
    }
    Ok(None)
}

/// `state = "state" states end {stimulus} ["endstate" [NAME] end]`
#[tactic(auto, unfolding(crate::specs::States::state_part))]
fn state_part(alloc: Global, cursor: &mut Cursor<'_, '_>, depth: usize) -> Result<BodyPart, Fault>
    requires { depth ≤ 64 }
    ensures { Reads body_part_value (spec.state_part depth cursor.old) result cursor.new }
{
    cursor.expect(Mark::State)?;
    let states = states(alloc, cursor)?;
    end(cursor)?;
    let stimuli = repeated(alloc, cursor, Inside { depth }, stimulus)?;
    end_state(alloc, cursor, &states)?;
    Ok(BodyPart::State(StatePart { states, stimuli }))
}

/// `states = "*" ["(" NAME {"," NAME} ")"] | NAME {"," NAME}`
#[tactic(auto, unfolding(crate::specs::States::states))]
fn states(alloc: Global, cursor: &mut Cursor<'_, '_>) -> Result<States, Fault>
    ensures { Reads states_value (spec.states cursor.old) result cursor.new }
{
    match taken(cursor, Mark::Asterisk) {
        None => Ok(States::Named(names(alloc, cursor)?)),
        Some(asterisk) => {
            let except = in_parentheses(alloc, cursor, At::OUTERMOST, name)?;
            Ok(States::All { asterisk, except })
        }
    }
}

/// `["endstate" [NAME] end]`
#[tactic(auto, unfolding(crate::specs::States::end_state))]
fn end_state(alloc: Global, cursor: &mut Cursor<'_, '_>, states: &States) -> Result<(), Fault>
    ensures { Reads (λ _. tt) (spec.end_state (states_value states.now) cursor.old) result cursor.new }
{
    match taken(cursor, Mark::EndState) {
        None => Ok(()),
        Some(_) => {
            end_state_name(alloc, cursor, states)?;
            end(cursor)
        }
    }
}

/// `[NAME]` behind `endstate`: one of the names of the state, and none behind `*`.
fn end_state_name(alloc: Global, cursor: &mut Cursor<'_, '_>, states: &States) -> Result<(), Fault>
    ensures { Reads (λ _. tt) (spec.end_state_name (states_value states.now) cursor.old) result cursor.new }
{
    match states {
        States::Named(names) => one_of(alloc, cursor, names.as_slice()),
        States::All { .. } => Ok(()),
    }
}

/// `[NAME]`, where a name is one of these.
#[tactic(auto, unfolding(parse_expressions::specs::Parts::named), using(crate::proofs::TurnLemmas::any_map))]
fn one_of(alloc: Global, cursor: &mut Cursor<'_, '_>, names: &[Name]) -> Result<(), Fault>
    ensures { Reads (λ _. tt) (spec.one_of (map name_value names.now) cursor.old) result cursor.new }
{
    match cursor.front() {
        Some(
            PlacedWord {
                word: Word::Name(text),
                ..
            },
        ) => {
            if is_named(names, text) {
                cursor.pass();
                return Ok(());
            }
            let Some(first) = names.first() else {
                return Err(Fault::Expected(Wanted::Name));
            };
            let right = String::from_str(alloc, first.text.as_str())?;
            Err(Fault::Expected(Wanted::ThisName(right)))
        }
        _ => Ok(()),
    }
}

/// Whether one of the names is this.
fn is_named(names: &[Name], text: &str) -> bool
    ensures { result ≡ list_any (λ name. bytes_eq (name_value name).text text.now) names.now }
{
    names.iter().any(|name| name.text.as_str() == text)
}

/// `connection = "connection" NAME ":" trans ["endconnection" [NAME] end]`
#[tactic(auto, unfolding(crate::specs::States::connection))]
fn connection(alloc: Global, cursor: &mut Cursor<'_, '_>, depth: usize) -> Result<BodyPart, Fault>
    requires { depth ≤ 64 }
    ensures { Reads body_part_value (spec.connection depth cursor.old) result cursor.new }
{
    let word = cursor.expect(Mark::Connection)?;
    let label = cursor.name(alloc)?;
    cursor.expect(Mark::Colon)?;
    let transition = transition(alloc, cursor, depth)?;
    end_connection(alloc, cursor, &label)?;
    Ok(BodyPart::FreeAction(FreeAction {
        word,
        label,
        transition,
    }))
}

/// `["endconnection" [NAME] end]`
#[tactic(auto, unfolding(crate::specs::States::end_connection))]
fn end_connection(alloc: Global, cursor: &mut Cursor<'_, '_>, label: &Name) -> Result<(), Fault>
    ensures { Reads (λ _. tt) (spec.end_connection (string_bytes label.now.text) cursor.old) result cursor.new }
{
    match taken(cursor, Mark::EndConnection) {
        None => Ok(()),
        Some(_) => {
            end_name(alloc, cursor, label)?;
            end(cursor)
        }
    }
}
