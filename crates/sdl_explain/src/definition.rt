//! The first definition of a name that its scope defines twice.
//!
//! The names of a specification are in six spaces, as in the look-up of names: signals with timers; signal lists;
//! channels; blocks with processes; variables, parameters and synonyms; labels.

use build_definitions::Definitions;
use build_names::{Faults, ScopeId};
use sdl_lex::Place;
use sdl_tree::{Name, Tree};
use std::alloc::{AllocError, Global};

/// A name space.
#[derive(Clone, Copy, PartialEq, Eq)]
enum Space {
    Signals,
    SignalLists,
    Channels,
    Agents,
    Values,
    Labels,
}

/// A name that is defined, with the scope and the space in which it is.
#[derive(Clone, Copy)]
struct Definition<'t> {
    space: Space,
    scope: ScopeId,
    name: &'t Name,
}

impl Definition<'_> {
    /// Whether both define names in one space of one scope.
    fn is_beside(&self, other: &Definition<'_>) -> bool {
        self.space == other.space && self.scope == other.scope
    }
}

/// Where the name of a definition is defined in its scope first. None if no definition is at its place.
pub fn first_definition(
    alloc: Global,
    tree: &Tree,
    told: &Name,
) -> Result<Option<Place>, AllocError> {
    let mut faults = Faults::new();
    let tables = Definitions::of(alloc, tree, &mut faults)?;
    let definitions = definitions_in(alloc, &tables)?;
    Ok(first_of(&definitions, told))
}

/// The first of these definitions of the name, beside the one at its place.
fn first_of(definitions: &[Definition<'_>], told: &Name) -> Option<Place> {
    let again = definition_at(definitions, told.place)?;
    for definition in definitions {
        if definition.is_beside(&again) && definition.name.text.as_str() == told.text.as_str() {
            return Some(definition.name.place);
        }
    }
    None
}

/// The definition of the name at a place.
fn definition_at<'t>(definitions: &[Definition<'t>], place: Place) -> Option<Definition<'t>> {
    for definition in definitions {
        if definition.name.place == place {
            return Some(*definition);
        }
    }
    None
}

/// All definitions, those of each space in the order of the text.
fn definitions_in<'t>(
    alloc: Global,
    tables: &Definitions<'t>,
) -> Result<Vec<Definition<'t>>, AllocError> {
    let mut found = Vec::new(alloc);
    add_signals(&mut found, tables)?;
    add_signal_lists(&mut found, tables)?;
    add_channels(&mut found, tables)?;
    add_agents(&mut found, tables)?;
    add_values(&mut found, tables)?;
    add_labels(&mut found, tables)?;
    Ok(found)
}

fn add_signals<'t>(
    found: &mut Vec<Definition<'t>>,
    tables: &Definitions<'t>,
) -> Result<(), AllocError> {
    for entry in &tables.signals {
        add(found, Space::Signals, entry.scope, entry.name)?;
    }
    Ok(())
}

fn add_signal_lists<'t>(
    found: &mut Vec<Definition<'t>>,
    tables: &Definitions<'t>,
) -> Result<(), AllocError> {
    for entry in &tables.lists {
        add(
            found,
            Space::SignalLists,
            entry.scope,
            &entry.definition.name,
        )?;
    }
    Ok(())
}

fn add_channels<'t>(
    found: &mut Vec<Definition<'t>>,
    tables: &Definitions<'t>,
) -> Result<(), AllocError> {
    for entry in &tables.channels {
        add(found, Space::Channels, entry.scope, &entry.definition.name)?;
    }
    Ok(())
}

fn add_agents<'t>(
    found: &mut Vec<Definition<'t>>,
    tables: &Definitions<'t>,
) -> Result<(), AllocError> {
    for entry in &tables.agents {
        add(found, Space::Agents, entry.scope, entry.name)?;
    }
    Ok(())
}

fn add_values<'t>(
    found: &mut Vec<Definition<'t>>,
    tables: &Definitions<'t>,
) -> Result<(), AllocError> {
    for entry in &tables.values {
        add(found, Space::Values, entry.scope, entry.name)?;
    }
    Ok(())
}

fn add_labels<'t>(
    found: &mut Vec<Definition<'t>>,
    tables: &Definitions<'t>,
) -> Result<(), AllocError> {
    for entry in &tables.labels {
        add(
            found,
            Space::Labels,
            ScopeId::Process(entry.process),
            entry.name,
        )?;
    }
    Ok(())
}

fn add<'t>(
    found: &mut Vec<Definition<'t>>,
    space: Space,
    scope: ScopeId,
    name: &'t Name,
) -> Result<(), AllocError> {
    found.push(Definition { space, scope, name })?;
    Ok(())
}
