//! What a state waits for, or saves.

ghost use Rattle.std.specs.Prelude.{◌≡◌, ◌≤◌, option_map};
ghost use Rattle.sdl_tree.specs.Views.{condition_value, input_value, inputs_value, name_value, number_value, saved_value, stimulus_value};
ghost use Rattle.sdl_parse.specs.Stimuli as spec;
ghost use Rattle.parse_expressions.specs.Reads.{Reads};

use crate::behaviour::optional::taken;
use crate::behaviour::place::Inside;
use crate::behaviour::transitions::transition;
use parse_expressions::expressions::expression;
use parse_expressions::parts::end;
use parse_expressions::signals::sigs;
use parse_expressions::{Cursor, Fault, Perhaps, Production, in_parentheses, separated};
use sdl_tree::{
    ContinuousSignal, EnablingCondition, Input, InputPart, Inputs, Mark, Name, Number,
    PriorityInput, SavePart, Saved, Stimulus,
};
use std::alloc::Global;

impl Production<Input> for Inside {
    ghost use Rattle.sdl_tree.specs.Tree as tree;
    ghost use Rattle.sdl_tree.specs.Views.{input_value};
    ghost use Rattle.sdl_parse.specs.Stimuli.{in1};

    ghost Node = { tree.Input };

    ghost value = { input_value };

    ghost reads = { λ _. in1 };
}

impl Production<Option<Name>> for Inside {
    ghost use Rattle.std.specs.Prelude.{Option, option_map};
    ghost use Rattle.sdl_tree.specs.Views.{name_value};
    ghost use Rattle.sdl_tree.specs.Words.{Spot};
    ghost use Rattle.sdl_parse.specs.Stimuli.{variable};

    ghost Node = { Option Spot };

    ghost value = { option_map name_value };

    ghost reads = { λ _. variable };
}

impl Perhaps<Stimulus> for Inside {
    ghost use Rattle.sdl_tree.specs.Tree as tree;
    ghost use Rattle.sdl_tree.specs.Views.{stimulus_value};
    ghost use Rattle.sdl_parse.specs.Stimuli.{stimulus};

    ghost Node = { tree.Stimulus };

    ghost value = { stimulus_value };

    ghost reads = { λ at. stimulus at.depth };
}

/// `stimulus = "input" ins end ["provided" expr end] trans | "priority" "input" in1 {"," in1} end trans
/// | "save" ("*" | sigs) end | "provided" expr end ["priority" NUMBER end] trans`, if one stands next.
#[tactic(auto, unfolding(crate::specs::Stimuli::stimulus, crate::specs::Stimuli::begins_stimulus))]
pub fn stimulus(
    alloc: Global,
    cursor: &mut Cursor<'_, '_>,
    at: Inside,
) -> Result<Option<Stimulus>, Fault>
    requires { at.depth ≤ 64 }
    ensures { Reads (option_map stimulus_value) (spec.stimulus at.depth cursor.old) result cursor.new }
{
    if !begins_stimulus(cursor) {
        return Ok(None);
    }
    let stimulus = one_stimulus(alloc, cursor, at.depth)?;
    Ok(Some(stimulus))
}

/// Whether a stimulus stands next.
#[tactic(auto, unfolding(crate::specs::Stimuli::begins_stimulus))]
fn begins_stimulus(cursor: &Cursor<'_, '_>) -> bool
    ensures { result ≡ spec.begins_stimulus cursor.now }
{
    cursor.sees(Mark::Input)
        || cursor.sees(Mark::Priority)
        || cursor.sees(Mark::Save)
        || cursor.sees(Mark::Provided)
}

/// One of the stimuli.
#[tactic(auto, unfolding(crate::specs::Stimuli::one_stimulus))]
fn one_stimulus(alloc: Global, cursor: &mut Cursor<'_, '_>, depth: usize) -> Result<Stimulus, Fault>
    requires { depth ≤ 64 }
    ensures { Reads stimulus_value (spec.one_stimulus depth cursor.old) result cursor.new }
{
    if cursor.sees(Mark::Input) {
        return input_part(alloc, cursor, depth);
    }
    if cursor.sees(Mark::Priority) {
        return priority_input(alloc, cursor, depth);
    }
    if cursor.sees(Mark::Save) {
        return save_part(alloc, cursor);
    }
    continuous_signal(alloc, cursor, depth)
}

/// `"input" ins end ["provided" expr end] trans`
#[tactic(auto, unfolding(crate::specs::Stimuli::input_part))]
fn input_part(alloc: Global, cursor: &mut Cursor<'_, '_>, depth: usize) -> Result<Stimulus, Fault>
    requires { depth ≤ 64 }
    ensures { Reads stimulus_value (spec.input_part depth cursor.old) result cursor.new }
{
    let word = cursor.expect(Mark::Input)?;
    let inputs = ins(alloc, cursor, depth)?;
    end(cursor)?;
    let condition = condition(alloc, cursor, depth)?;
    let transition = transition(alloc, cursor, depth)?;
    Ok(Stimulus::Input(InputPart {
        word,
        inputs,
        condition,
        transition,
    }))
}

/// `ins = "*" | in1 {"," in1}`
#[tactic(auto, unfolding(crate::specs::Stimuli::ins))]
fn ins(alloc: Global, cursor: &mut Cursor<'_, '_>, depth: usize) -> Result<Inputs, Fault>
    ensures { Reads inputs_value (spec.ins cursor.old) result cursor.new }
{
    match taken(cursor, Mark::Asterisk) {
        None => Ok(Inputs::Listed(separated(alloc, cursor, Inside { depth }, in1)?)),
        Some(asterisk) => Ok(Inputs::All(asterisk)),
    }
}

/// `in1 = NAME ["(" [NAME] {"," [NAME]} ")"]`
#[tactic(auto, unfolding(crate::specs::Stimuli::in1))]
fn in1(alloc: Global, cursor: &mut Cursor<'_, '_>, at: Inside) -> Result<Input, Fault>
    ensures { Reads input_value (spec.in1 cursor.old) result cursor.new }
{
    let signal = cursor.name(alloc)?;
    let variables = in_parentheses(alloc, cursor, at, variable)?;
    Ok(Input { signal, variables })
}

/// `[NAME]`
#[tactic(auto, unfolding(crate::specs::Stimuli::variable))]
fn variable(alloc: Global, cursor: &mut Cursor<'_, '_>, _at: Inside) -> Result<Option<Name>, Fault>
    ensures { Reads (option_map name_value) (spec.variable cursor.old) result cursor.new }
{
    if !cursor.sees_name() {
        return Ok(None);
    }
    let name = cursor.name(alloc)?;
    Ok(Some(name))
}

/// `["provided" expr end]`
#[tactic(auto, unfolding(crate::specs::Stimuli::condition))]
fn condition(
    alloc: Global,
    cursor: &mut Cursor<'_, '_>,
    depth: usize,
) -> Result<Option<EnablingCondition>, Fault>
    requires { depth ≤ 64 }
    ensures { Reads (option_map condition_value) (spec.condition depth cursor.old) result cursor.new }
{
    match taken(cursor, Mark::Provided) {
        None => Ok(None),
        Some(word) => {
            let condition = expression(alloc, cursor, depth)?;
            end(cursor)?;
            Ok(Some(EnablingCondition { word, condition }))
        }
    }
}

/// `"priority" "input" in1 {"," in1} end trans`. A priority input has no condition here.
#[tactic(auto, unfolding(crate::specs::Stimuli::priority_input))]
fn priority_input(
    alloc: Global,
    cursor: &mut Cursor<'_, '_>,
    depth: usize,
) -> Result<Stimulus, Fault>
    requires { depth ≤ 64 }
    ensures { Reads stimulus_value (spec.priority_input depth cursor.old) result cursor.new }
{
    let word = cursor.expect(Mark::Priority)?;
    cursor.expect(Mark::Input)?;
    let inputs = separated(alloc, cursor, Inside { depth }, in1)?;
    end(cursor)?;
    if cursor.sees(Mark::Provided) {
        return Err(Fault::Condition);
    }
    let transition = transition(alloc, cursor, depth)?;
    Ok(Stimulus::Priority(PriorityInput {
        word,
        inputs,
        transition,
    }))
}

/// `"save" ("*" | sigs) end`
#[tactic(auto, unfolding(crate::specs::Stimuli::save_part))]
fn save_part(alloc: Global, cursor: &mut Cursor<'_, '_>) -> Result<Stimulus, Fault>
    ensures { Reads stimulus_value (spec.save_part cursor.old) result cursor.new }
{
    let word = cursor.expect(Mark::Save)?;
    let saved = saved(alloc, cursor)?;
    end(cursor)?;
    Ok(Stimulus::Save(SavePart { word, saved }))
}

/// `"*" | sigs`
#[tactic(auto, unfolding(crate::specs::Stimuli::saved))]
fn saved(alloc: Global, cursor: &mut Cursor<'_, '_>) -> Result<Saved, Fault>
    ensures { Reads saved_value (spec.saved cursor.old) result cursor.new }
{
    match taken(cursor, Mark::Asterisk) {
        None => Ok(Saved::Listed(sigs(alloc, cursor)?)),
        Some(asterisk) => Ok(Saved::All(asterisk)),
    }
}

/// `"provided" expr end ["priority" NUMBER end] trans`
#[tactic(auto, unfolding(crate::specs::Stimuli::continuous_signal))]
fn continuous_signal(
    alloc: Global,
    cursor: &mut Cursor<'_, '_>,
    depth: usize,
) -> Result<Stimulus, Fault>
    requires { depth ≤ 64 }
    ensures { Reads stimulus_value (spec.continuous_signal depth cursor.old) result cursor.new }
{
    let word = cursor.expect(Mark::Provided)?;
    let condition = expression(alloc, cursor, depth)?;
    end(cursor)?;
    let priority = priority(alloc, cursor)?;
    let transition = transition(alloc, cursor, depth)?;
    Ok(Stimulus::Continuous(ContinuousSignal {
        word,
        condition,
        priority,
        transition,
    }))
}

/// `["priority" NUMBER end]`
#[tactic(auto, unfolding(crate::specs::Stimuli::priority))]
fn priority(alloc: Global, cursor: &mut Cursor<'_, '_>) -> Result<Option<Number>, Fault>
    ensures { Reads (option_map number_value) (spec.priority cursor.old) result cursor.new }
{
    match taken(cursor, Mark::Priority) {
        None => Ok(None),
        Some(_) => {
            let number = cursor.number(alloc)?;
            end(cursor)?;
            Ok(Some(number))
        }
    }
}
