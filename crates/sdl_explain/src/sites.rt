//! All places of a specification at which something is wanted.

use crate::expression_sites::add_value;
use crate::site::{Kind, Site, Use, What};
use crate::transition_sites::add_transition;
use build_definitions::Definitions;
use build_names::ScopeId;
use sdl_lex::Place;
use sdl_system::{BlockId, ProcessId};
use sdl_tree::{
    BlockPart, BodyPart, Bound, ChannelConnection, ChannelDefinition, ChannelEnd, ChannelPath,
    Definition, Input, Inputs, LocalDefinition, Name, ParameterGroup, ProcessDefinition, Saved,
    SignalDefinition, SignalListItem, SortName, StatePart, Stimulus, SynonymDefinitions,
    SystemDefinition, TimerDefinitions, Tree, VariableGroup,
};
use std::alloc::{AllocError, Global};

/// All sites of a specification.
pub fn sites_of<'t>(
    alloc: Global,
    tree: &'t Tree,
    tables: &Definitions<'t>,
) -> Result<Vec<Site<'t>>, AllocError> {
    let mut sites = Sites {
        found: Vec::new(alloc),
        scope: ScopeId::System,
    };
    add_system(&mut sites, tree)?;
    add_processes(&mut sites, tables)?;
    Ok(sites.found)
}

/// The sites that were found so far, and the scope of those that come next.
#[derive(Drop)]
pub struct Sites<'t> {
    found: Vec<Site<'t>>,
    scope: ScopeId,
}

impl<'t> Sites<'t> {
    /// Adds what stands at a place.
    pub fn add(&mut self, place: Place, what: What<'t>) -> Result<(), AllocError> {
        let scope = self.scope;
        self.found.push(Site { place, scope, what })?;
        Ok(())
    }

    /// Adds a name that has to stand for something.
    pub fn add_name(&mut self, name: &'t Name, kind: Kind) -> Result<(), AllocError> {
        self.add(name.place, What::Name(name, kind))
    }
}

/// Adds what stands in the system and in its blocks, except in processes.
fn add_system<'t>(sites: &mut Sites<'t>, tree: &'t Tree) -> Result<(), AllocError> {
    let mut blocks = 0u32;
    for definition in &tree.definitions {
        match definition {
            SystemDefinition::Shared(shared) => {
                sites.scope = ScopeId::System;
                add_definition(sites, shared)?;
            }
            SystemDefinition::Block(block) => {
                sites.scope = ScopeId::Block(BlockId(blocks));
                blocks = blocks.saturating_add(1);
                add_block(sites, &block.definitions)?;
            }
        }
    }
    Ok(())
}

fn add_block<'t>(sites: &mut Sites<'t>, parts: &'t [BlockPart]) -> Result<(), AllocError> {
    for part in parts {
        match part {
            BlockPart::Shared(shared) => add_definition(sites, shared)?,
            BlockPart::Connect(connection) => add_connection(sites, connection)?,
        }
    }
    Ok(())
}

fn add_connection<'t>(
    sites: &mut Sites<'t>,
    connection: &'t ChannelConnection,
) -> Result<(), AllocError> {
    add_names(sites, &connection.outer, Kind::Channel)?;
    add_names(sites, &connection.inner, Kind::Channel)
}

fn add_names<'t>(sites: &mut Sites<'t>, names: &'t [Name], kind: Kind) -> Result<(), AllocError> {
    for name in names {
        sites.add_name(name, kind)?;
    }
    Ok(())
}

fn add_definition<'t>(sites: &mut Sites<'t>, definition: &'t Definition) -> Result<(), AllocError> {
    match definition {
        Definition::Signals(signals) => add_signals(sites, signals),
        Definition::SignalList(list) => add_items(sites, &list.items),
        Definition::Synonyms(synonyms) => add_synonyms(sites, synonyms),
        Definition::Channel(channel) => add_channel(sites, channel),
        Definition::Process(process) => add_counts(sites, process),
    }
}

fn add_signals<'t>(
    sites: &mut Sites<'t>,
    signals: &'t [SignalDefinition],
) -> Result<(), AllocError> {
    for signal in signals {
        add_sorts(sites, &signal.sorts)?;
    }
    Ok(())
}

fn add_sorts<'t>(sites: &mut Sites<'t>, sorts: &'t [SortName]) -> Result<(), AllocError> {
    for sort in sorts {
        sites.add_name(&sort.spelled, Kind::Sort)?;
    }
    Ok(())
}

fn add_items<'t>(sites: &mut Sites<'t>, items: &'t [SignalListItem]) -> Result<(), AllocError> {
    for item in items {
        match item {
            SignalListItem::Signal(name) => sites.add_name(name, Kind::ListedSignal)?,
            SignalListItem::List(name) => sites.add_name(name, Kind::SignalList)?,
        }
    }
    Ok(())
}

fn add_synonyms<'t>(
    sites: &mut Sites<'t>,
    definitions: &'t SynonymDefinitions,
) -> Result<(), AllocError> {
    for synonym in &definitions.synonyms {
        sites.add_name(&synonym.sort.spelled, Kind::Sort)?;
        add_value(sites, &synonym.value, Use::Initial(&synonym.sort))?;
    }
    Ok(())
}

fn add_channel<'t>(
    sites: &mut Sites<'t>,
    channel: &'t ChannelDefinition,
) -> Result<(), AllocError> {
    add_path(sites, &channel.first)?;
    match &channel.second {
        Some(path) => add_path(sites, path),
        None => Ok(()),
    }
}

fn add_path<'t>(sites: &mut Sites<'t>, path: &'t ChannelPath) -> Result<(), AllocError> {
    add_end(sites, &path.from)?;
    add_end(sites, &path.to)?;
    add_items(sites, &path.signals)
}

fn add_end<'t>(sites: &mut Sites<'t>, end: &'t ChannelEnd) -> Result<(), AllocError> {
    match end {
        ChannelEnd::Env(_) => Ok(()),
        ChannelEnd::Agent(name) => sites.add_name(name, Kind::Agent),
    }
}

/// Adds the counts of a process, which belong to the scope around it.
fn add_counts<'t>(sites: &mut Sites<'t>, process: &'t ProcessDefinition) -> Result<(), AllocError> {
    let Some(counts) = &process.counts else {
        return Ok(());
    };
    if let Some(initial) = &counts.initial {
        add_value(sites, initial, Use::Count)?;
    }
    match &counts.bound {
        Some(
            Bound {
                maximum: Some(maximum),
            },
        ) => add_value(sites, maximum, Use::Count),
        _ => Ok(()),
    }
}

/// Adds what stands in each process.
fn add_processes<'t>(sites: &mut Sites<'t>, tables: &Definitions<'t>) -> Result<(), AllocError> {
    let mut number = 0u32;
    for process in &tables.processes {
        sites.scope = ScopeId::Process(ProcessId(number));
        number = number.saturating_add(1);
        add_process(sites, process.definition)?;
    }
    Ok(())
}

fn add_process<'t>(
    sites: &mut Sites<'t>,
    process: &'t ProcessDefinition,
) -> Result<(), AllocError> {
    if let Some(parameters) = &process.parameters {
        add_groups(sites, &parameters.groups)?;
    }
    add_locals(sites, &process.definitions)?;
    add_transition(sites, &process.start.transition)?;
    add_body(sites, &process.body)
}

fn add_groups<'t>(sites: &mut Sites<'t>, groups: &'t [ParameterGroup]) -> Result<(), AllocError> {
    for group in groups {
        sites.add_name(&group.sort.spelled, Kind::Sort)?;
    }
    Ok(())
}

fn add_body<'t>(sites: &mut Sites<'t>, parts: &'t [BodyPart]) -> Result<(), AllocError> {
    for part in parts {
        match part {
            BodyPart::State(state) => add_state(sites, state)?,
            BodyPart::FreeAction(action) => add_transition(sites, &action.transition)?,
        }
    }
    Ok(())
}

fn add_locals<'t>(
    sites: &mut Sites<'t>,
    definitions: &'t [LocalDefinition],
) -> Result<(), AllocError> {
    for definition in definitions {
        add_local(sites, definition)?;
    }
    Ok(())
}

fn add_local<'t>(sites: &mut Sites<'t>, definition: &'t LocalDefinition) -> Result<(), AllocError> {
    match definition {
        LocalDefinition::Signals(signals) => add_signals(sites, signals),
        LocalDefinition::SignalList(list) => add_items(sites, &list.items),
        LocalDefinition::Synonyms(synonyms) => add_synonyms(sites, synonyms),
        LocalDefinition::SignalSet(set) => add_items(sites, &set.items),
        LocalDefinition::Variables(groups) => add_variables(sites, groups),
        LocalDefinition::Timers(timers) => add_timers(sites, timers),
    }
}

fn add_variables<'t>(sites: &mut Sites<'t>, groups: &'t [VariableGroup]) -> Result<(), AllocError> {
    for group in groups {
        sites.add_name(&group.sort.spelled, Kind::Sort)?;
        if let Some(initial) = &group.initial {
            add_value(sites, initial, Use::Initial(&group.sort))?;
        }
    }
    Ok(())
}

fn add_timers<'t>(
    sites: &mut Sites<'t>,
    definitions: &'t TimerDefinitions,
) -> Result<(), AllocError> {
    for timer in &definitions.timers {
        add_sorts(sites, &timer.sorts)?;
        if let Some(duration) = &timer.duration {
            add_value(sites, duration, Use::OwnDuration)?;
        }
    }
    Ok(())
}

fn add_state<'t>(sites: &mut Sites<'t>, state: &'t StatePart) -> Result<(), AllocError> {
    for stimulus in &state.stimuli {
        add_stimulus(sites, stimulus)?;
    }
    Ok(())
}

fn add_stimulus<'t>(sites: &mut Sites<'t>, stimulus: &'t Stimulus) -> Result<(), AllocError> {
    match stimulus {
        Stimulus::Input(input) => {
            if let Inputs::Listed(inputs) = &input.inputs {
                add_inputs(sites, inputs)?;
            }
            if let Some(condition) = &input.condition {
                add_value(sites, &condition.condition, Use::Condition)?;
            }
            add_transition(sites, &input.transition)
        }
        Stimulus::Priority(input) => {
            add_inputs(sites, &input.inputs)?;
            add_transition(sites, &input.transition)
        }
        Stimulus::Save(save) => match &save.saved {
            Saved::Listed(items) => add_saved(sites, items),
            Saved::All(_) => Ok(()),
        },
        Stimulus::Continuous(signal) => {
            add_value(sites, &signal.condition, Use::Condition)?;
            add_transition(sites, &signal.transition)
        }
    }
}

fn add_saved<'t>(sites: &mut Sites<'t>, items: &'t [SignalListItem]) -> Result<(), AllocError> {
    for item in items {
        match item {
            SignalListItem::Signal(name) => sites.add_name(name, Kind::Saved)?,
            SignalListItem::List(name) => sites.add_name(name, Kind::SignalList)?,
        }
    }
    Ok(())
}

fn add_inputs<'t>(sites: &mut Sites<'t>, inputs: &'t [Input]) -> Result<(), AllocError> {
    for input in inputs {
        let name = &input.signal;
        let places = input.variables.len();
        sites.add_name(name, Kind::Stimulus)?;
        sites.add(name.place, What::Received { name, places })?;
        add_taking(sites, input)?;
    }
    Ok(())
}

/// Adds the variables that take the values of a signal.
fn add_taking<'t>(sites: &mut Sites<'t>, input: &'t Input) -> Result<(), AllocError> {
    for (number, variable) in input.variables.iter().enumerate() {
        if let Some(variable) = variable {
            sites.add_name(variable, Kind::Variable)?;
            let signal = &input.signal;
            sites.add(
                variable.place,
                What::Taking {
                    variable,
                    signal,
                    number,
                },
            )?;
        }
    }
    Ok(())
}
