//! What systems, blocks and processes define.

ghost use Rattle.std.specs.Prelude.{OnOk, map};
ghost use Rattle.sdl_tree.specs.Canonical.{signal_words, signals_words, signal_list_words, synonym_words, synonyms_words, point_words, path_words, no_delay_words, channel_words, variables_words, timer_words, timers_words, signal_set_words, local_words, connect_words, definition_words, block_part_words, block_words, system_definition_words};
ghost use Rattle.sdl_tree.specs.Erased.{erased_signal, erased_signal_list, erased_synonym, erased_synonyms, erased_end, erased_path, erased_channel, erased_variables, erased_timer, erased_timers, erased_signal_set, erased_local, erased_connection, erased_definition, erased_block_part, erased_block, erased_system_definition};
ghost use Rattle.sdl_tree.specs.Views.{signal_value, signal_list_value, synonym_value, synonyms_value, end_value, path_value, channel_value, variables_value, timer_value, timers_value, signal_set_value, local_value, connection_value, definition_value, block_part_value, block_value, system_definition_value};
ghost use Rattle.sdl_print.specs.Form.{written_as};
ghost use Rattle.sdl_print.specs.Wrote.{Wrote};

use crate::canonical::{Canonical, in_parentheses, optional, optional_behind, repeated, separated};
use crate::text::Text;
use sdl_tree::{
    BlockDefinition, BlockPart, ChannelConnection, ChannelDefinition, ChannelEnd, ChannelPath,
    Definition, LocalDefinition, Mark, SignalDefinition, SignalListDefinition, SignalSet,
    SynonymDefinition, SynonymDefinitions, SystemDefinition, TimerDefinition, TimerDefinitions,
    VariableGroup,
};
use std::alloc::AllocError;

/// `def | block`
impl Canonical for SystemDefinition {
    ghost form = { written_as system_definition_value erased_system_definition system_definition_words };

    fn write(&self, text: &mut Text) -> Result<(), AllocError> {
        match self {
            SystemDefinition::Shared(definition) => definition.write(text),
            SystemDefinition::Block(block) => block.write(text),
        }
    }
}

/// `"block" NAME ";" {def | connect} "endblock" NAME ";"`
impl Canonical for BlockDefinition {
    ghost form = { written_as block_value erased_block block_words };

    fn write(&self, text: &mut Text) -> Result<(), AllocError> {
        text.mark(Mark::Block)?;
        self.name.write(text)?;
        text.mark(Mark::Semicolon)?;
        repeated(text, &self.definitions)?;
        text.mark(Mark::EndBlock)?;
        self.name.write(text)?;
        text.mark(Mark::Semicolon)
    }
}

/// `def | connect`
impl Canonical for BlockPart {
    ghost form = { written_as block_part_value erased_block_part block_part_words };

    fn write(&self, text: &mut Text) -> Result<(), AllocError> {
        match self {
            BlockPart::Shared(definition) => definition.write(text),
            BlockPart::Connect(connection) => connection.write(text),
        }
    }
}

/// `"connect" NAME {"," NAME} "and" NAME {"," NAME} ";"`
impl Canonical for ChannelConnection {
    ghost form = { written_as connection_value erased_connection connect_words };

    fn write(&self, text: &mut Text) -> Result<(), AllocError> {
        text.mark(Mark::Connect)?;
        separated(text, &self.outer)?;
        text.mark(Mark::And)?;
        separated(text, &self.inner)?;
        text.mark(Mark::Semicolon)
    }
}

/// `def = signal | signallist | synonym | channel | process`
impl Canonical for Definition {
    ghost form = { written_as definition_value erased_definition definition_words };

    fn write(&self, text: &mut Text) -> Result<(), AllocError> {
        match self {
            Definition::Signals(defined) => signals(text, defined),
            Definition::SignalList(list) => list.write(text),
            Definition::Synonyms(synonyms) => synonyms.write(text),
            Definition::Channel(channel) => channel.write(text),
            Definition::Process(process) => process.write(text),
        }
    }
}

/// The signals that one `signal` defines, for which the tree has no node of their own.
fn signals(text: &mut Text, signals: &[SignalDefinition]) -> Result<(), AllocError>
    ensures { OnOk result (Wrote text.old text.new
        (signals_words (map erased_signal (map signal_value signals.now)))) }
{
    text.mark(Mark::Signal)?;
    separated(text, signals)?;
    text.mark(Mark::Semicolon)
}

/// `NAME ["(" NAME {"," NAME} ")"]`
impl Canonical for SignalDefinition {
    ghost form = { written_as signal_value erased_signal signal_words };

    fn write(&self, text: &mut Text) -> Result<(), AllocError> {
        self.name.write(text)?;
        in_parentheses(text, &self.sorts)
    }
}

/// `"signallist" NAME "=" sig {"," sig} ";"`
impl Canonical for SignalListDefinition {
    ghost form = { written_as signal_list_value erased_signal_list signal_list_words };

    fn write(&self, text: &mut Text) -> Result<(), AllocError> {
        text.mark(Mark::SignalList)?;
        self.name.write(text)?;
        text.mark(Mark::Equal)?;
        separated(text, &self.items)?;
        text.mark(Mark::Semicolon)
    }
}

/// `"synonym" one {"," one} ";"`
impl Canonical for SynonymDefinitions {
    ghost form = { written_as synonyms_value erased_synonyms synonyms_words };

    fn write(&self, text: &mut Text) -> Result<(), AllocError> {
        text.mark(Mark::Synonym)?;
        separated(text, &self.synonyms)?;
        text.mark(Mark::Semicolon)
    }
}

/// `NAME NAME "=" expr`
impl Canonical for SynonymDefinition {
    ghost form = { written_as synonym_value erased_synonym synonym_words };

    fn write(&self, text: &mut Text) -> Result<(), AllocError> {
        self.name.write(text)?;
        self.sort.write(text)?;
        text.mark(Mark::Equal)?;
        self.value.write(text)
    }
}

/// `"channel" NAME ["nodelay"] path [path] "endchannel" NAME ";"`
impl Canonical for ChannelDefinition {
    ghost form = { written_as channel_value erased_channel channel_words };

    fn write(&self, text: &mut Text) -> Result<(), AllocError> {
        text.mark(Mark::Channel)?;
        self.name.write(text)?;
        nodelay(text, self.is_nodelay)?;
        self.first.write(text)?;
        optional(text, &self.second)?;
        text.mark(Mark::EndChannel)?;
        self.name.write(text)?;
        text.mark(Mark::Semicolon)
    }
}

/// `["nodelay"]`
fn nodelay(text: &mut Text, is_nodelay: bool) -> Result<(), AllocError>
    ensures { OnOk result (Wrote text.old text.new (no_delay_words is_nodelay)) }
{
    if is_nodelay {
        text.mark(Mark::NoDelay)
    } else {
        Ok(())
    }
}

/// `"from" point "to" point "with" sig {"," sig} ";"`
impl Canonical for ChannelPath {
    ghost form = { written_as path_value erased_path path_words };

    fn write(&self, text: &mut Text) -> Result<(), AllocError> {
        text.mark(Mark::From)?;
        self.from.write(text)?;
        text.mark(Mark::To)?;
        self.to.write(text)?;
        text.mark(Mark::With)?;
        separated(text, &self.signals)?;
        text.mark(Mark::Semicolon)
    }
}

/// `"env" | NAME`
impl Canonical for ChannelEnd {
    ghost form = { written_as end_value erased_end point_words };

    fn write(&self, text: &mut Text) -> Result<(), AllocError> {
        match self {
            ChannelEnd::Env(_) => text.mark(Mark::Env),
            ChannelEnd::Agent(name) => name.write(text),
        }
    }
}

/// `signal | signallist | synonym | signalset | dcl | timer`: what a process defines for itself.
impl Canonical for LocalDefinition {
    ghost form = { written_as local_value erased_local local_words };

    fn write(&self, text: &mut Text) -> Result<(), AllocError> {
        match self {
            LocalDefinition::Signals(defined) => signals(text, defined),
            LocalDefinition::SignalList(list) => list.write(text),
            LocalDefinition::Synonyms(synonyms) => synonyms.write(text),
            LocalDefinition::SignalSet(received) => received.write(text),
            LocalDefinition::Variables(groups) => {
                text.mark(Mark::Dcl)?;
                separated(text, groups)?;
                text.mark(Mark::Semicolon)
            }
            LocalDefinition::Timers(timers) => timers.write(text),
        }
    }
}

/// `"signalset" sig {"," sig} ";"`
impl Canonical for SignalSet {
    ghost form = { written_as signal_set_value erased_signal_set signal_set_words };

    fn write(&self, text: &mut Text) -> Result<(), AllocError> {
        text.mark(Mark::SignalSet)?;
        separated(text, &self.items)?;
        text.mark(Mark::Semicolon)
    }
}

/// `NAME {"," NAME} NAME [":=" expr]`: variables of one sort.
impl Canonical for VariableGroup {
    ghost form = { written_as variables_value erased_variables variables_words };

    fn write(&self, text: &mut Text) -> Result<(), AllocError> {
        separated(text, &self.names)?;
        self.sort.write(text)?;
        optional_behind(text, Mark::Assign, &self.initial)
    }
}

/// `"timer" one {"," one} ";"`
impl Canonical for TimerDefinitions {
    ghost form = { written_as timers_value erased_timers timers_words };

    fn write(&self, text: &mut Text) -> Result<(), AllocError> {
        text.mark(Mark::Timer)?;
        separated(text, &self.timers)?;
        text.mark(Mark::Semicolon)
    }
}

/// `NAME ["(" NAME {"," NAME} ")"] [":=" expr]`
impl Canonical for TimerDefinition {
    ghost form = { written_as timer_value erased_timer timer_words };

    fn write(&self, text: &mut Text) -> Result<(), AllocError> {
        self.name.write(text)?;
        in_parentheses(text, &self.sorts)?;
        optional_behind(text, Mark::Assign, &self.duration)
    }
}
