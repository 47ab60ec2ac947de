//! The signals that a process names, and its timers.

ghost use Rattle.std.specs.Prelude.{◌≡◌, ◌++◌, flat_map, map, OnOk};
ghost use Rattle.build_network.specs.Processes.{input_item, inputs_items, local_timers, named_items, part_items, process_faults, saved_items, set_faults, set_items, stimulus_items, timer_items, timers_items};
ghost use Rattle.build_network.specs.Seen.{seen_of};
ghost use Rattle.build_names.specs.Faults.{Notes};
ghost use Rattle.sdl_tree.specs.Views.{body_part_value, input_value, inputs_value, local_value, process_value, saved_value, stimulus_value, timer_value};

use crate::seen::{Seen, add_found};
use build_names::Faults;
use build_routes::Item;
use sdl_tree::{
    BodyPart, Input, Inputs, LocalDefinition, ProcessDefinition, Saved, StatePart, Stimulus,
    TimerDefinition,
};
use std::alloc::AllocError;

/// Adds what the process inputs or saves by name, and its signal set.
pub fn add_named(
    seen: &Seen<'_, '_, '_>,
    process: &ProcessDefinition,
    list: &mut Vec<Item>,
) -> Result<(), AllocError>
    ensures { OnOk result (list.new.items ≡ list.old.items
        ++ named_items (seen_of seen.now) (process_value process.now)) }
{
    add_body(seen, &process.body, list)?;
    add_sets(seen, &process.definitions, list)
}

fn add_body(
    seen: &Seen<'_, '_, '_>,
    body: &[BodyPart],
    list: &mut Vec<Item>,
) -> Result<(), AllocError>
    ensures { OnOk result (list.new.items
        ≡ list.old.items ++ flat_map (part_items (seen_of seen.now)) (map body_part_value body.now)) }
{
    for part in body {
        add_part(seen, part, list)?;
    }
    Ok(())
}

fn add_part(
    seen: &Seen<'_, '_, '_>,
    part: &BodyPart,
    list: &mut Vec<Item>,
) -> Result<(), AllocError>
    ensures { OnOk result (list.new.items ≡ list.old.items
        ++ part_items (seen_of seen.now) (body_part_value part.now)) }
{
    match part {
        BodyPart::State(StatePart { stimuli, .. }) => add_stimuli(seen, stimuli, list),
        BodyPart::FreeAction(_) => Ok(()),
    }
}

fn add_stimuli(
    seen: &Seen<'_, '_, '_>,
    stimuli: &[Stimulus],
    list: &mut Vec<Item>,
) -> Result<(), AllocError>
    ensures { OnOk result (list.new.items
        ≡ list.old.items ++ flat_map (stimulus_items (seen_of seen.now)) (map stimulus_value stimuli.now)) }
{
    for stimulus in stimuli {
        add_stimulus(seen, stimulus, list)?;
    }
    Ok(())
}

fn add_stimulus(
    seen: &Seen<'_, '_, '_>,
    stimulus: &Stimulus,
    list: &mut Vec<Item>,
) -> Result<(), AllocError>
    ensures { OnOk result (list.new.items
        ≡ list.old.items ++ stimulus_items (seen_of seen.now) (stimulus_value stimulus.now)) }
{
    match stimulus {
        Stimulus::Input(part) => add_inputs(seen, &part.inputs, list),
        Stimulus::Priority(part) => add_each(seen, &part.inputs, list),
        Stimulus::Save(part) => add_saved(seen, &part.saved, list),
        Stimulus::Continuous(_) => Ok(()),
    }
}

fn add_inputs(
    seen: &Seen<'_, '_, '_>,
    inputs: &Inputs,
    list: &mut Vec<Item>,
) -> Result<(), AllocError>
    ensures { OnOk result (list.new.items ≡ list.old.items
        ++ inputs_items (seen_of seen.now) (inputs_value inputs.now)) }
{
    match inputs {
        Inputs::Listed(inputs) => add_each(seen, inputs, list),
        Inputs::All(_) => Ok(()),
    }
}

fn add_each(
    seen: &Seen<'_, '_, '_>,
    inputs: &[Input],
    list: &mut Vec<Item>,
) -> Result<(), AllocError>
    ensures { OnOk result (list.new.items
        ≡ list.old.items ++ flat_map (input_item (seen_of seen.now)) (map input_value inputs.now)) }
{
    for input in inputs {
        add_input(seen, input, list)?;
    }
    Ok(())
}

fn add_input(seen: &Seen<'_, '_, '_>, input: &Input, list: &mut Vec<Item>) -> Result<(), AllocError>
    ensures { OnOk result (list.new.items ≡ list.old.items ++ input_item (seen_of seen.now) (input_value input.now)) }
{
    add_found(seen.signal(&input.signal), list)
}

fn add_saved(seen: &Seen<'_, '_, '_>, saved: &Saved, list: &mut Vec<Item>) -> Result<(), AllocError>
    ensures { OnOk result (list.new.items ≡ list.old.items ++ saved_items (seen_of seen.now) (saved_value saved.now)) }
{
    match saved {
        Saved::Listed(items) => seen.add_items(items, list),
        Saved::All(_) => Ok(()),
    }
}

fn add_sets(
    seen: &Seen<'_, '_, '_>,
    definitions: &[LocalDefinition],
    list: &mut Vec<Item>,
) -> Result<(), AllocError>
    ensures { OnOk result (list.new.items
        ≡ list.old.items ++ flat_map (set_items (seen_of seen.now)) (map local_value definitions.now)) }
{
    for definition in definitions {
        add_set(seen, definition, list)?;
    }
    Ok(())
}

fn add_set(
    seen: &Seen<'_, '_, '_>,
    definition: &LocalDefinition,
    list: &mut Vec<Item>,
) -> Result<(), AllocError>
    ensures { OnOk result (list.new.items ≡ list.old.items
        ++ set_items (seen_of seen.now) (local_value definition.now)) }
{
    match definition {
        LocalDefinition::SignalSet(signals) => seen.add_items(&signals.items, list),
        _ => Ok(()),
    }
}

/// Notes the names in the signal sets of the process that stand for nothing.
pub fn note_sets<'t>(
    seen: &Seen<'_, '_, 't>,
    process: &'t ProcessDefinition,
    faults: &mut Faults<'t>,
)
    ensures { Notes faults.old faults.new (process_faults (seen_of seen.now) (process_value process.now)) }
{
    for definition in &process.definitions {
        note_set(seen, definition, faults);
    }
}

fn note_set<'t>(seen: &Seen<'_, '_, 't>, definition: &'t LocalDefinition, faults: &mut Faults<'t>)
    ensures { Notes faults.old faults.new (set_faults (seen_of seen.now) (local_value definition.now)) }
{
    if let LocalDefinition::SignalSet(signals) = definition {
        seen.note_items(&signals.items, faults);
    }
}

/// Adds the timers of the process.
pub fn add_timers(
    seen: &Seen<'_, '_, '_>,
    process: &ProcessDefinition,
    list: &mut Vec<Item>,
) -> Result<(), AllocError>
    ensures { OnOk result (list.new.items ≡ list.old.items
        ++ timers_items (seen_of seen.now) (process_value process.now)) }
{
    for definition in &process.definitions {
        add_local(seen, definition, list)?;
    }
    Ok(())
}

fn add_local(
    seen: &Seen<'_, '_, '_>,
    definition: &LocalDefinition,
    list: &mut Vec<Item>,
) -> Result<(), AllocError>
    ensures { OnOk result (list.new.items ≡ list.old.items
        ++ local_timers (seen_of seen.now) (local_value definition.now)) }
{
    match definition {
        LocalDefinition::Timers(timers) => add_all(seen, &timers.timers, list),
        _ => Ok(()),
    }
}

fn add_all(
    seen: &Seen<'_, '_, '_>,
    timers: &[TimerDefinition],
    list: &mut Vec<Item>,
) -> Result<(), AllocError>
    ensures { OnOk result (list.new.items
        ≡ list.old.items ++ flat_map (timer_items (seen_of seen.now)) (map timer_value timers.now)) }
{
    for timer in timers {
        add_timer(seen, timer, list)?;
    }
    Ok(())
}

fn add_timer(
    seen: &Seen<'_, '_, '_>,
    timer: &TimerDefinition,
    list: &mut Vec<Item>,
) -> Result<(), AllocError>
    ensures { OnOk result (list.new.items ≡ list.old.items ++ timer_items (seen_of seen.now) (timer_value timer.now)) }
{
    add_found(seen.timer(&timer.name), list)
}
