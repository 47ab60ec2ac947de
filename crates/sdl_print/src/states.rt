//! States, and what begins their transitions.

ghost use Rattle.std.specs.Prelude.{OnOk, option_map};
ghost use Rattle.sdl_tree.specs.Canonical as canonical;
ghost use Rattle.sdl_tree.specs.Canonical.{start_words, sig_words, in1_words, ins_words, saved_words, condition_words, priority_words, stimulus_words, states_words, body_part_words};
ghost use Rattle.sdl_tree.specs.Erased.{erased_number, erased_start, erased_item, erased_input, erased_inputs, erased_saved, erased_condition, erased_stimulus, erased_states, erased_body_part};
ghost use Rattle.sdl_tree.specs.Views.{number_value, start_value, item_value, input_value, inputs_value, saved_value, condition_value, stimulus_value, states_value, body_part_value};
ghost use Rattle.sdl_print.specs.Form.{written_as};
ghost use Rattle.sdl_print.specs.Wrote.{Wrote};

use crate::canonical::{Canonical, in_parentheses, optional, repeated, separated};
use crate::text::Text;
use sdl_tree::{
    BodyPart, ContinuousSignal, EnablingCondition, FreeAction, Input, InputPart, Inputs, Mark,
    Number, PriorityInput, SavePart, Saved, SignalListItem, Start, StatePart, States, Stimulus,
};
use std::alloc::AllocError;

/// `"start" ";" trans`
impl Canonical for Start {
    ghost form = { written_as start_value erased_start start_words };

    fn write(&self, text: &mut Text) -> Result<(), AllocError> {
        text.mark(Mark::Start)?;
        text.mark(Mark::Semicolon)?;
        self.transition.write(text)
    }
}

/// `state | connection`
impl Canonical for BodyPart {
    ghost form = { written_as body_part_value erased_body_part body_part_words };

    fn write(&self, text: &mut Text) -> Result<(), AllocError> {
        match self {
            BodyPart::State(part) => state_part(text, part),
            BodyPart::FreeAction(action) => free_action(text, action),
        }
    }
}

/// `"state" states ";" {stimulus} "endstate" ";"`
fn state_part(text: &mut Text, part: &StatePart) -> Result<(), AllocError>
    ensures { OnOk result (Wrote text.old text.new
        (body_part_words (erased_body_part (body_part_value (BodyPart.State part.now))))) }
{
    text.mark(Mark::State)?;
    part.states.write(text)?;
    text.mark(Mark::Semicolon)?;
    repeated(text, &part.stimuli)?;
    text.mark(Mark::EndState)?;
    text.mark(Mark::Semicolon)
}

/// `"connection" NAME ":" trans "endconnection" ";"`
fn free_action(text: &mut Text, action: &FreeAction) -> Result<(), AllocError>
    ensures { OnOk result (Wrote text.old text.new
        (body_part_words (erased_body_part (body_part_value (BodyPart.FreeAction action.now))))) }
{
    text.mark(Mark::Connection)?;
    action.label.write(text)?;
    text.mark(Mark::Colon)?;
    action.transition.write(text)?;
    text.mark(Mark::EndConnection)?;
    text.mark(Mark::Semicolon)
}

/// `NAME {"," NAME} | "*" ["(" NAME {"," NAME} ")"]`
impl Canonical for States {
    ghost form = { written_as states_value erased_states states_words };

    fn write(&self, text: &mut Text) -> Result<(), AllocError> {
        match self {
            States::Named(names) => separated(text, names)?,
            States::All { except, .. } => {
                text.mark(Mark::Asterisk)?;
                in_parentheses(text, except)?;
            }
        }
        Ok(())
    }
}

/// `input | priority | save | provided`
impl Canonical for Stimulus {
    ghost form = { written_as stimulus_value erased_stimulus stimulus_words };

    fn write(&self, text: &mut Text) -> Result<(), AllocError> {
        match self {
            Stimulus::Input(part) => input_part(text, part),
            Stimulus::Priority(input) => priority_input(text, input),
            Stimulus::Save(part) => save_part(text, part),
            Stimulus::Continuous(signal) => continuous_signal(text, signal),
        }
    }
}

/// `"input" ins ";" ["provided" expr ";"] trans`
fn input_part(text: &mut Text, part: &InputPart) -> Result<(), AllocError>
    ensures { OnOk result (Wrote text.old text.new
        (stimulus_words (erased_stimulus (stimulus_value (Stimulus.Input part.now))))) }
{
    text.mark(Mark::Input)?;
    part.inputs.write(text)?;
    text.mark(Mark::Semicolon)?;
    optional(text, &part.condition)?;
    part.transition.write(text)
}

/// `"priority" "input" in1 {"," in1} ";" trans`
fn priority_input(text: &mut Text, input: &PriorityInput) -> Result<(), AllocError>
    ensures { OnOk result (Wrote text.old text.new
        (stimulus_words (erased_stimulus (stimulus_value (Stimulus.Priority input.now))))) }
{
    text.mark(Mark::Priority)?;
    text.mark(Mark::Input)?;
    separated(text, &input.inputs)?;
    text.mark(Mark::Semicolon)?;
    input.transition.write(text)
}

/// `"save" ("*" | sig {"," sig}) ";"`
fn save_part(text: &mut Text, part: &SavePart) -> Result<(), AllocError>
    ensures { OnOk result (Wrote text.old text.new
        (stimulus_words (erased_stimulus (stimulus_value (Stimulus.Save part.now))))) }
{
    text.mark(Mark::Save)?;
    part.saved.write(text)?;
    text.mark(Mark::Semicolon)
}

/// `"provided" expr ";" ["priority" NUMBER ";"] trans`
fn continuous_signal(text: &mut Text, signal: &ContinuousSignal) -> Result<(), AllocError>
    ensures { OnOk result (Wrote text.old text.new
        (stimulus_words (erased_stimulus (stimulus_value (Stimulus.Continuous signal.now))))) }
{
    text.mark(Mark::Provided)?;
    signal.condition.write(text)?;
    text.mark(Mark::Semicolon)?;
    priority(text, &signal.priority)?;
    signal.transition.write(text)
}

/// `"*" | in1 {"," in1}`
impl Canonical for Inputs {
    ghost form = { written_as inputs_value erased_inputs ins_words };

    fn write(&self, text: &mut Text) -> Result<(), AllocError> {
        match self {
            Inputs::Listed(listed) => separated(text, listed)?,
            Inputs::All(_) => text.mark(Mark::Asterisk)?,
        }
        Ok(())
    }
}

/// `NAME ["(" [NAME] {"," [NAME]} ")"]`
impl Canonical for Input {
    ghost form = { written_as input_value erased_input in1_words };

    fn write(&self, text: &mut Text) -> Result<(), AllocError> {
        self.signal.write(text)?;
        in_parentheses(text, &self.variables)
    }
}

/// `"*" | sig {"," sig}`
impl Canonical for Saved {
    ghost form = { written_as saved_value erased_saved saved_words };

    fn write(&self, text: &mut Text) -> Result<(), AllocError> {
        match self {
            Saved::Listed(items) => separated(text, items)?,
            Saved::All(_) => text.mark(Mark::Asterisk)?,
        }
        Ok(())
    }
}

/// `NAME | "(" NAME ")"`: a signal, or a list of signals.
impl Canonical for SignalListItem {
    ghost form = { written_as item_value erased_item sig_words };

    fn write(&self, text: &mut Text) -> Result<(), AllocError> {
        match self {
            SignalListItem::Signal(name) => name.write(text),
            SignalListItem::List(name) => {
                text.mark(Mark::Open)?;
                name.write(text)?;
                text.mark(Mark::Close)
            }
        }
    }
}

/// `"provided" expr ";"`
impl Canonical for EnablingCondition {
    ghost form = { written_as condition_value erased_condition condition_words };

    fn write(&self, text: &mut Text) -> Result<(), AllocError> {
        text.mark(Mark::Provided)?;
        self.condition.write(text)?;
        text.mark(Mark::Semicolon)
    }
}

/// `["priority" NUMBER ";"]`
fn priority(text: &mut Text, priority: &Option<Number>) -> Result<(), AllocError>
    ensures { OnOk result (Wrote text.old text.new
        (canonical.optional priority_words (option_map erased_number (option_map number_value priority.now)))) }
{
    match priority {
        None => Ok(()),
        Some(number) => {
            text.mark(Mark::Priority)?;
            number.write(text)?;
            text.mark(Mark::Semicolon)
        }
    }
}
