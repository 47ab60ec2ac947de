//! Signals that are sent and never taken, or taken and never sent.

ghost use Rattle.std.specs.Prelude.{◌≡◌, ◌++◌, IfOk, OnOk, map};
ghost use Rattle.std.specs.List.{list_any};
ghost use Rattle.sdl_tree.specs.Views.{system_definition_value, tree_value};
ghost use Rattle.sdl_warnings.specs.Heads.{head_value};
ghost use Rattle.sdl_warnings.specs.Sets.{has};
ghost use Rattle.sdl_warnings.specs.Signals.{fed, heard, is_channel, of_signals, taken, takes_unnamed, told_at, unheard, unnamed, unsent, unsettled};

use crate::elsewhere::elsewhere;
use crate::heads::{Head, heads};
use crate::name_set::NameSet;
use crate::paths::{addressed, carried, has_asterisk};
use crate::suspicion::{Behaviour, Oddity};
use parse_expressions::PlacedWord;
use sdl_tree::{Definition, Mark, SystemDefinition, Tree};
use std::alloc::{AllocError, Global};

/// Adds the signals that are sent though nobody can take them, and those that are taken though nobody can send them. In a
/// system without channels the environment takes and sends each.
pub fn add_signals(
    alloc: Global,
    found: &mut Vec<Oddity>,
    tree: &Tree,
    words: &[PlacedWord<'_>],
) -> Result<(), AllocError>
    ensures { OnOk result (found.new.items ≡ found.old.items ++ of_signals (tree_value tree.now) words.now) }
{
    if has_channels(&tree.definitions) {
        add_unheard(alloc, found, words)?;
        add_unsent(alloc, found, words)?;
    }
    Ok(())
}

/// Whether the system has a channel of its own, not only its blocks.
fn has_channels(definitions: &[SystemDefinition]) -> bool
    ensures { result ≡ list_any is_channel (map system_definition_value definitions.now) }
{
    for definition in definitions {
        if let SystemDefinition::Shared(Definition::Channel(_)) = definition {
            return true;
        }
    }
    false
}

/// Adds the signals that outputs send and nobody takes.
fn add_unheard(
    alloc: Global,
    found: &mut Vec<Oddity>,
    words: &[PlacedWord<'_>],
) -> Result<(), AllocError>
    ensures { OnOk result (found.new.items ≡ found.old.items ++ unheard words.now) }
{
    if takes_unnamed(words) {
        Ok(())
    } else {
        add_unnamed(alloc, found, words)
    }
}

/// The same, if what isn't named isn't taken.
fn add_unnamed(
    alloc: Global,
    found: &mut Vec<Oddity>,
    words: &[PlacedWord<'_>],
) -> Result<(), AllocError>
    ensures { OnOk result (found.new.items ≡ found.old.items ++ unnamed words.now) }
{
    let defined = heads(alloc, words, Mark::Signal)?;
    let sent = heads(alloc, words, Mark::Output)?;
    let heard = heard(alloc, words)?;
    let is_there = NameSet::of(alloc, &sent)?;
    let is_settled = NameSet::of(alloc, &heard)?;
    add_unsettled(
        found,
        Behaviour::UnheardSignal,
        &is_there,
        &is_settled,
        &defined,
    )
}

/// Adds the signals that inputs or saves have and nobody sends.
fn add_unsent(
    alloc: Global,
    found: &mut Vec<Oddity>,
    words: &[PlacedWord<'_>],
) -> Result<(), AllocError>
    ensures { OnOk result (found.new.items ≡ found.old.items ++ unsent words.now) }
{
    let defined = heads(alloc, words, Mark::Signal)?;
    let taken = taken(alloc, words)?;
    let fed = fed(alloc, words)?;
    let is_there = NameSet::of(alloc, &taken)?;
    let is_settled = NameSet::of(alloc, &fed)?;
    add_unsettled(
        found,
        Behaviour::UnsentSignal,
        &is_there,
        &is_settled,
        &defined,
    )
}

/// Adds this of each of these names that is in the first set and isn't in the second one.
fn add_unsettled(
    found: &mut Vec<Oddity>,
    behaviour: Behaviour,
    there: &NameSet<'_>,
    settled: &NameSet<'_>,
    names: &[Head<'_>],
) -> Result<(), AllocError>
    ensures { OnOk result (found.new.items ≡ found.old.items
        ++ unsettled behaviour (has there.now) (has settled.now) (map head_value names.now)) }
{
    for head in names {
        let is_told = there.has(head.name) && !settled.has(head.name);
        add_if(found, behaviour, is_told, *head)?;
    }
    Ok(())
}

/// Adds this of a name, if it is to be told.
fn add_if(
    found: &mut Vec<Oddity>,
    behaviour: Behaviour,
    is_told: bool,
    head: Head<'_>,
) -> Result<(), AllocError>
    ensures { OnOk result (found.new.items
        ≡ found.old.items ++ told_at behaviour is_told (head_value head.entry)) }
{
    if is_told {
        found.push(Oddity {
            behaviour,
            place: head.place,
        })?;
    }
    Ok(())
}

/// Whether an `input *` or a `save *` takes signals that aren't named.
fn takes_unnamed(words: &[PlacedWord<'_>]) -> bool
    ensures { result ≡ takes_unnamed words.now }
{
    has_asterisk(words, Mark::Input) || has_asterisk(words, Mark::Save)
}

/// The names in inputs and in saves.
fn taken<'t>(alloc: Global, words: &[PlacedWord<'t>]) -> Result<Vec<Head<'t>>, AllocError>
    ensures { IfOk result (λ found. map head_value found.items ≡ taken words.now) }
{
    let mut found = heads(alloc, words, Mark::Input)?;
    let saves = heads(alloc, words, Mark::Save)?;
    add_all(&mut found, &saves)?;
    Ok(found)
}

/// The names of signals that somebody takes or may take.
fn heard<'t>(alloc: Global, words: &[PlacedWord<'t>]) -> Result<Vec<Head<'t>>, AllocError>
    ensures { IfOk result (λ found. map head_value found.items ≡ heard words.now) }
{
    let mut found = elsewhere(alloc, words)?;
    let inputs = heads(alloc, words, Mark::Input)?;
    add_all(&mut found, &inputs)?;
    let saves = heads(alloc, words, Mark::Save)?;
    add_all(&mut found, &saves)?;
    let own = addressed(alloc, words)?;
    add_all(&mut found, &own)?;
    let leaving = carried(alloc, words, Mark::To)?;
    add_all(&mut found, &leaving)?;
    Ok(found)
}

/// The names of signals that somebody sends or may send.
fn fed<'t>(alloc: Global, words: &[PlacedWord<'t>]) -> Result<Vec<Head<'t>>, AllocError>
    ensures { IfOk result (λ found. map head_value found.items ≡ fed words.now) }
{
    let mut found = elsewhere(alloc, words)?;
    let outputs = heads(alloc, words, Mark::Output)?;
    add_all(&mut found, &outputs)?;
    let coming = carried(alloc, words, Mark::From)?;
    add_all(&mut found, &coming)?;
    Ok(found)
}

/// Adds all of these.
fn add_all<'t>(found: &mut Vec<Head<'t>>, more: &[Head<'t>]) -> Result<(), AllocError>
    ensures { OnOk result (map head_value found.new.items
        ≡ map head_value found.old.items ++ map head_value more.now) }
{
    found.extend_from_slice(more)?;
    Ok(())
}
