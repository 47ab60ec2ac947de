//! The parts of a process, in the order of the text.

ghost use Rattle.std.specs.Prelude.{◌≡◌, ◌<◌, ◌∷◌, ◌++◌, ◌^◌, [], IfOk, IsOk, OnOk, length, map, option_map};
ghost use Rattle.build_names.specs.Faults.{Notes};
ghost use Rattle.build_states.specs.Context.{context_of};
ghost use Rattle.build_states.specs.Faulty.{condition_faults, expression_faults, inputs_faults, list_faults, stimulus_faults};
ghost use Rattle.build_states.specs.Listed.{begun_value, conditions_listed, numbering_value, reading_value};
ghost use Rattle.build_states.specs.Reading.{body_faults, body_read, condition_term, next_condition, number_of_condition, part_faults, part_read, priority_of, stimuli_faults, with_condition, with_continuous, with_enabling, with_input, with_part, with_priority, with_stimulus};
ghost use Rattle.sdl_tree.specs.Views.{body_part_value, condition_value, expr_value, input_value, inputs_value, number_value, states_value, stimulus_value};

use crate::stimuli::context::Context;
use crate::stimuli::inputs::{add_inputs, add_list};
use crate::stimuli::mention::{Manner, Mention};
use crate::stimuli::saves::add_saved;
use crate::stimuli::transition::TransitionId;
use build_expressions::resolve_condition;
use build_names::Faults;
use sdl_system::{ConditionId, Expression};
use sdl_tree::{
    BodyPart, EnablingCondition, InputPart, PriorityInput, StatePart, States, Stimulus,
};
use std::alloc::{AllocError, Global};

/// A continuous signal, with the number that is its priority, where it has one.
#[derive(Clone, Copy, PartialEq, Eq)]
pub struct ContinuousSignal {
    pub condition: ConditionId,
    pub priority: Option<i64>,
    pub begin: TransitionId,
}

/// A part with the states to which it belongs, and with its stimuli in the order of the text.
#[derive(Drop)]
pub struct Part<'t> {
    pub states: &'t States,
    pub mentions: Vec<Mention<'t>>,
    /// The enabling conditions.
    pub enabling: Vec<ConditionId>,
    pub continuous: Vec<ContinuousSignal>,
}

/// The numbering of the transitions and conditions of a process.
#[derive(Drop)]
pub struct Numbering {
    /// The transition that comes next.
    pub next: TransitionId,
    /// The expressions of the conditions, by their numbers. None for one in which a rule is broken.
    pub conditions: Vec<Option<Expression>>,
}

/// The parts of the states of a process, with the numbering of their transitions and conditions.
#[derive(Drop)]
pub struct Reading<'t> {
    pub numbering: Numbering,
    pub parts: Vec<Part<'t>>,
}

/// Reads the parts of a process, and the conditions in them. Notes the faults of their stimuli: `Unknown` and `Sort`
/// at names, and those of the conditions. It doesn't see what a state says twice.
pub fn read_body<'t>(
    alloc: Global,
    context: &Context<'_, '_, 't>,
    body: &'t [BodyPart],
    faults: &mut Faults<'t>,
) -> Result<Reading<'t>, AllocError>
    ensures read { IfOk result (λ reading. reading_value reading
        ≡ body_read (context_of context.now) (map body_part_value body.now)) }
    ensures noted { OnOk result (Notes faults.old faults.new
        (body_faults (context_of context.now) (map body_part_value body.now))) }
{
    let mut reading = Reading {
        numbering: Numbering {
            next: TransitionId(1),
            conditions: Vec::new(alloc),
        },
        parts: Vec::new(alloc),
    };
    for part in body {
        add_part(alloc, context, part, &mut reading, faults)?;
    }
    Ok(reading)
}

fn add_part<'t>(
    alloc: Global,
    context: &Context<'_, '_, 't>,
    part: &'t BodyPart,
    reading: &mut Reading<'t>,
    faults: &mut Faults<'t>,
) -> Result<(), AllocError>
    ensures read { OnOk result (reading_value reading.new
        ≡ with_part (context_of context.now) (reading_value reading.old) (body_part_value part.now)) }
    ensures noted { OnOk result (Notes faults.old faults.new
        (part_faults (context_of context.now) (body_part_value part.now))) }
{
    match part {
        BodyPart::State(part) => {
            let read = read_part(alloc, context, part, &mut reading.numbering, faults)?;
            reading.parts.push(read)?;
        }
        BodyPart::FreeAction(_) => reading.numbering.next = reading.numbering.next.next()?,
    }
    Ok(())
}

fn read_part<'t>(
    alloc: Global,
    context: &Context<'_, '_, 't>,
    part: &'t StatePart,
    numbering: &mut Numbering,
    faults: &mut Faults<'t>,
) -> Result<Part<'t>, AllocError>
    ensures read { IfOk result (λ read. begun_value numbering.new read
        ≡ part_read (context_of context.now) (numbering_value numbering.old) (states_value part.now.states)
        (map stimulus_value part.now.stimuli.items)) }
    ensures noted { OnOk result (Notes faults.old faults.new
        (stimuli_faults (context_of context.now) (map stimulus_value part.now.stimuli.items))) }
{
    let mut read = Part {
        states: &part.states,
        mentions: Vec::new(alloc),
        enabling: Vec::new(alloc),
        continuous: Vec::new(alloc),
    };
    for stimulus in &part.stimuli {
        add_stimulus(alloc, context, stimulus, numbering, &mut read, faults)?;
    }
    Ok(read)
}

fn add_stimulus<'t>(
    alloc: Global,
    context: &Context<'_, '_, 't>,
    stimulus: &'t Stimulus,
    numbering: &mut Numbering,
    part: &mut Part<'t>,
    faults: &mut Faults<'t>,
) -> Result<(), AllocError>
    ensures read { OnOk result (begun_value numbering.new part.new
        ≡ with_stimulus (context_of context.now) (begun_value numbering.old part.old) (stimulus_value stimulus.now)) }
    ensures noted { OnOk result (Notes faults.old faults.new
        (stimulus_faults (context_of context.now) (stimulus_value stimulus.now))) }
{
    match stimulus {
        Stimulus::Input(input) => add_input(alloc, context, input, numbering, part, faults),
        Stimulus::Priority(input) => add_priority(alloc, context, input, numbering, part, faults),
        Stimulus::Save(save) => {
            add_saved(alloc, context, &save.saved, &mut part.mentions, faults)
        }
        Stimulus::Continuous(signal) => {
            add_continuous(alloc, context, signal, numbering, part, faults)
        }
    }
}

fn add_input<'t>(
    alloc: Global,
    context: &Context<'_, '_, 't>,
    input: &'t InputPart,
    numbering: &mut Numbering,
    part: &mut Part<'t>,
    faults: &mut Faults<'t>,
) -> Result<(), AllocError>
    ensures read { OnOk result (begun_value numbering.new part.new
        ≡ with_input (context_of context.now) (begun_value numbering.old part.old) (inputs_value input.now.inputs)
        (option_map condition_value input.now.condition)) }
    ensures noted { OnOk result (Notes faults.old faults.new
        (inputs_faults (context_of context.now) (inputs_value input.now.inputs)
        ++ condition_faults (context_of context.now) (option_map condition_value input.now.condition))) }
{
    let condition = number_of_condition(&numbering.conditions, &input.condition)?;
    let manner = Manner::Input(condition);
    let inputs = &input.inputs;
    add_inputs(
        alloc,
        context,
        manner,
        numbering.next,
        inputs,
        &mut part.mentions,
        faults,
    )?;
    add_condition(
        alloc,
        context,
        &input.condition,
        &mut numbering.conditions,
        faults,
    )?;
    add_enabling(&mut part.enabling, condition)?;
    numbering.next = numbering.next.next()?;
    Ok(())
}

/// The number that this condition gets, if there is one.
fn number_of_condition(
    conditions: &[Option<Expression>],
    condition: &Option<EnablingCondition>,
) -> Result<Option<ConditionId>, AllocError>
    ensures { IfOk result (λ number. number
        ≡ number_of_condition (conditions_listed conditions.now) (option_map condition_value condition.now)) }
{
    match condition {
        None => Ok(None),
        Some(_) => Ok(Some(next_condition(conditions)?)),
    }
}

/// The number of the condition that comes next. More than have numbers take more memory than there is.
fn next_condition(conditions: &[Option<Expression>]) -> Result<ConditionId, AllocError>
    ensures same { IfOk result (λ number. number ≡ next_condition (conditions_listed conditions.now)) }
    ensures fits { length conditions.now < 2 ^ 32 → IsOk result }
{
    if conditions.len() > u32::MAX as usize {
        return Err(AllocError);
    }
    Ok(ConditionId(conditions.len() as u32))
}

/// Resolves an enabling condition, and adds it to the conditions.
fn add_condition<'t>(
    alloc: Global,
    context: &Context<'_, '_, 't>,
    condition: &'t Option<EnablingCondition>,
    conditions: &mut Vec<Option<Expression>>,
    faults: &mut Faults<'t>,
) -> Result<(), AllocError>
    ensures read { OnOk result (conditions_listed conditions.new.items ≡ with_condition (context_of context.now)
        (conditions_listed conditions.old.items) (option_map condition_value condition.now)) }
    ensures noted { OnOk result (Notes faults.old faults.new
        (condition_faults (context_of context.now) (option_map condition_value condition.now))) }
{
    match condition {
        None => Ok(()),
        Some(condition) => add_expression(alloc, context, &condition.condition, conditions, faults),
    }
}

fn add_expression<'t>(
    alloc: Global,
    context: &Context<'_, '_, 't>,
    condition: &'t sdl_tree::Expression,
    conditions: &mut Vec<Option<Expression>>,
    faults: &mut Faults<'t>,
) -> Result<(), AllocError>
    ensures read { OnOk result (conditions_listed conditions.new.items ≡ conditions_listed conditions.old.items
        ++ condition_term (context_of context.now) (expr_value condition.now) ∷ []) }
    ensures noted { OnOk result (Notes faults.old faults.new
        (expression_faults (context_of context.now) (expr_value condition.now))) }
{
    let resolved = resolve_condition(alloc, &context.scope, condition, faults)?;
    conditions.push(resolved)?;
    Ok(())
}

fn add_enabling(
    enabling: &mut Vec<ConditionId>,
    condition: Option<ConditionId>,
) -> Result<(), AllocError>
    ensures { OnOk result (enabling.new.items ≡ with_enabling enabling.old.items condition) }
{
    if let Some(condition) = condition {
        enabling.push(condition)?;
    }
    Ok(())
}

fn add_priority<'t>(
    alloc: Global,
    context: &Context<'_, '_, 't>,
    input: &'t PriorityInput,
    numbering: &mut Numbering,
    part: &mut Part<'t>,
    faults: &mut Faults<'t>,
) -> Result<(), AllocError>
    ensures read { OnOk result (begun_value numbering.new part.new
        ≡ with_priority (context_of context.now) (begun_value numbering.old part.old)
        (map input_value input.now.inputs.items)) }
    ensures noted { OnOk result (Notes faults.old faults.new
        (list_faults (context_of context.now) (map input_value input.now.inputs.items))) }
{
    let inputs = &input.inputs;
    let begin = numbering.next;
    add_list(
        alloc,
        context,
        Manner::Priority,
        begin,
        inputs,
        &mut part.mentions,
        faults,
    )?;
    numbering.next = begin.next()?;
    Ok(())
}

fn add_continuous<'t>(
    alloc: Global,
    context: &Context<'_, '_, 't>,
    signal: &'t sdl_tree::ContinuousSignal,
    numbering: &mut Numbering,
    part: &mut Part<'t>,
    faults: &mut Faults<'t>,
) -> Result<(), AllocError>
    ensures read { OnOk result (begun_value numbering.new part.new
        ≡ with_continuous (context_of context.now) (begun_value numbering.old part.old)
        (expr_value signal.now.condition) (option_map number_value signal.now.priority)) }
    ensures noted { OnOk result (Notes faults.old faults.new
        (expression_faults (context_of context.now) (expr_value signal.now.condition))) }
{
    part.continuous.push(ContinuousSignal {
        condition: next_condition(&numbering.conditions)?,
        priority: priority_of(&signal.priority),
        begin: numbering.next,
    })?;
    add_expression(
        alloc,
        context,
        &signal.condition,
        &mut numbering.conditions,
        faults,
    )?;
    numbering.next = numbering.next.next()?;
    Ok(())
}

fn priority_of(priority: &Option<sdl_tree::Number>) -> Option<i64>
    ensures { result ≡ priority_of (option_map number_value priority.now) }
{
    match priority {
        None => None,
        Some(number) => Some(number.value),
    }
}
