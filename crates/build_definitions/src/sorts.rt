//! The names of sorts.

ghost use Rattle.std.specs.Prelude.{◌≡◌, flat_map, map, IfOk};
ghost use Rattle.build_definitions.specs.Parts.{placed_sort_faults, signal_sort_faults, sort_faults, synonym_sort_faults, timer_sort_faults};
ghost use Rattle.build_definitions.specs.Sorts.{sort_at, sort_named, unknown_sort, unknown_sorts};
ghost use Rattle.build_definitions.specs.Views.{part_value, parts_listed};
ghost use Rattle.build_names.specs.Faults.{Notes};
ghost use Rattle.sdl_tree.specs.Views.{signal_value, sort_value, sorts_value, synonym_value, timer_value};

use crate::enter::enter;
use crate::part::{Part, Placed};
use build_names::{Faults, Rule, Token};
use sdl_system::Sort;
use sdl_tree::{SignalDefinition, SortName, SynonymDefinition, TimerDefinition};
use std::alloc::{AllocError, Global};

/// The sort of this name, if it is a sort's.
fn sort_named(text: &str) -> Option<Sort>
    ensures { result ≡ sort_named text.now }
{
    if text == "Integer" {
        Some(Sort::Integer)
    } else if text == "Natural" {
        Some(Sort::Natural)
    } else if text == "Boolean" {
        Some(Sort::Boolean)
    } else if text == "Pid" {
        Some(Sort::Pid)
    } else if text == "PId" {
        Some(Sort::Pid)
    } else if text == "Time" {
        Some(Sort::Time)
    } else if text == "Duration" {
        Some(Sort::Duration)
    } else {
        None
    }
}

/// The sort that stands here. None where the name is no sort's.
pub fn sort_at(name: &SortName) -> Option<Sort>
    ensures { result ≡ sort_at (sort_value name.now) }
{
    sort_named(name.spelled.text.as_str())
}

/// The sorts that stand here.
pub fn sorts_at(alloc: Global, names: &[SortName]) -> Result<Vec<Option<Sort>>, AllocError>
    ensures { IfOk result (λ sorts. sorts.items ≡ map sort_at (sorts_value names.now)) }
{
    let mut sorts = Vec::new(alloc);
    for name in names {
        enter(&mut sorts, sort_at(name))?;
    }
    Ok(sorts)
}

/// Notes a name that is no sort's.
pub fn note_sort<'t>(name: &'t SortName, faults: &mut Faults<'t>)
    ensures { Notes faults.old faults.new (unknown_sort (sort_value name.now)) }
{
    if sort_at(name).is_none() {
        faults.note(Rule::Unknown, Token::of_name(&name.spelled));
    }
}

/// Notes the names that are no sort's.
pub fn note_sorts<'t>(names: &'t [SortName], faults: &mut Faults<'t>)
    ensures { Notes faults.old faults.new (unknown_sorts (sorts_value names.now)) }
{
    for name in names {
        note_sort(name, faults);
    }
}

/// Notes the names in these definitions that stand for sorts and are none's.
pub fn note_in_parts<'t>(parts: &[Placed<'t>], faults: &mut Faults<'t>)
    ensures { Notes faults.old faults.new (flat_map placed_sort_faults (parts_listed parts.now)) }
{
    for placed in parts {
        note_in_part(placed.part, faults);
    }
}

fn note_in_part<'t>(part: Part<'t>, faults: &mut Faults<'t>)
    ensures { Notes faults.old faults.new (sort_faults (part_value part.entry)) }
{
    match part {
        Part::Signals(signals) => note_in_signals(signals, faults),
        Part::Timers(timers) => note_in_timers(timers, faults),
        Part::Synonyms(synonyms) => note_in_synonyms(synonyms, faults),
        Part::Parameters(group) => note_sort(&group.sort, faults),
        Part::Variables(group) => note_sort(&group.sort, faults),
        _ => {}
    }
}

fn note_in_signals<'t>(signals: &'t [SignalDefinition], faults: &mut Faults<'t>)
    ensures { Notes faults.old faults.new (flat_map signal_sort_faults (map signal_value signals.now)) }
{
    for signal in signals {
        note_sorts(&signal.sorts, faults);
    }
}

fn note_in_timers<'t>(timers: &'t [TimerDefinition], faults: &mut Faults<'t>)
    ensures { Notes faults.old faults.new (flat_map timer_sort_faults (map timer_value timers.now)) }
{
    for timer in timers {
        note_sorts(&timer.sorts, faults);
    }
}

fn note_in_synonyms<'t>(synonyms: &'t [SynonymDefinition], faults: &mut Faults<'t>)
    ensures { Notes faults.old faults.new (flat_map synonym_sort_faults (map synonym_value synonyms.now)) }
{
    for synonym in synonyms {
        note_sort(&synonym.sort, faults);
    }
}
