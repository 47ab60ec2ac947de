//! The words of an item.

ghost use Rattle.std.specs.Prelude.{◌≡◌, ◌++◌, codes, slice_get, string_bytes, IfOk};
ghost use Rattle.std.specs.Fmt.{decimal};
ghost use Rattle.sdl_lex.specs.Place.{place_text};
ghost use Rattle.view_coverage.specs.Sections.{awaited_text, in_text, input_text, name_text, signal_text};

use crate::goals::{Awaited, Urgency};
use port_model::SignalId;
use sdl_lex::Place;
use sdl_system::{StateId, System};
use sdl_tree::Name;
use std::alloc::{AllocError, Global};

/// The state of an item.
pub fn in_text(alloc: Global, name: &str) -> Result<String, AllocError>
    ensures { IfOk result (λ text. string_bytes text ≡ in_text name.now) }
{
    let mut text = String::new(alloc);
    write!(text, "in {name}")?;
    Ok(text)
}

/// The decision of an item.
pub fn decision_text(alloc: Global, place: Place) -> Result<String, AllocError>
    ensures { IfOk result (λ text. string_bytes text ≡ codes "decision of " ++ place_text place) }
{
    let mut text = String::new(alloc);
    write!(text, "decision of {place}")?;
    Ok(text)
}

pub fn place_text(alloc: Global, place: Place) -> Result<String, AllocError>
    ensures { IfOk result (λ text. string_bytes text ≡ place_text place) }
{
    let mut text = String::new(alloc);
    write!(text, "{place}")?;
    Ok(text)
}

/// The name of a state, among those with these names.
pub fn name_text<'n>(states: &[&'n Name], state: StateId) -> &'n str
    ensures { result.now ≡ name_text (slice_get states.now state.0) }
{
    match states.get(state.0 as usize) {
        Some(name) => name.text.as_str(),
        None => "",
    }
}

/// What a state waits for, in the words of the text.
pub fn awaited_text(alloc: Global, system: &System, awaited: Awaited) -> Result<String, AllocError>
    ensures { IfOk result (λ text. string_bytes text ≡ awaited_text system.now awaited) }
{
    match awaited {
        Awaited::Signal(urgency, signal) => input_text(alloc, urgency, signal_text(system, signal)),
        Awaited::Rest => String::from_str(alloc, "input *"),
        Awaited::Continuous(number) => continuous_text(alloc, number),
    }
}

fn input_text(alloc: Global, urgency: Urgency, name: &str) -> Result<String, AllocError>
    ensures { IfOk result (λ text. string_bytes text ≡ input_text urgency name.now) }
{
    match urgency {
        Urgency::Plain => plain_text(alloc, name),
        Urgency::Priority => priority_text(alloc, name),
    }
}

fn plain_text(alloc: Global, name: &str) -> Result<String, AllocError>
    ensures { IfOk result (λ text. string_bytes text ≡ codes "input " ++ name.now) }
{
    let mut text = String::new(alloc);
    write!(text, "input {name}")?;
    Ok(text)
}

fn priority_text(alloc: Global, name: &str) -> Result<String, AllocError>
    ensures { IfOk result (λ text. string_bytes text ≡ codes "priority input " ++ name.now) }
{
    let mut text = String::new(alloc);
    write!(text, "priority input {name}")?;
    Ok(text)
}

fn continuous_text(alloc: Global, number: u32) -> Result<String, AllocError>
    ensures { IfOk result (λ text. string_bytes text ≡ codes "provided " ++ decimal number) }
{
    let mut text = String::new(alloc);
    write!(text, "provided {number}")?;
    Ok(text)
}

/// The name of a signal or a timer.
fn signal_text(system: &System, signal: SignalId) -> &str
    ensures { result.now ≡ signal_text (slice_get system.now.signals signal.0) }
{
    match system.signal(signal) {
        Some(signal) => signal.name.as_str(),
        None => "",
    }
}
