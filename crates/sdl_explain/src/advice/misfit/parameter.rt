//! Advice on what is given for the parameters of a signal, a timer or a process, and on what takes their values.

use crate::advice::names::Names;
use crate::advice::sorts::{one_of, sort_of_name};
use crate::site::Kind;
use build_definitions::SignalKind;
use build_expressions::OperandSort;
use explain_syntax::Advice;
use sdl_system::Sort;
use sdl_tree::Name;
use std::alloc::{AllocError, Global};

/// The sorts of the parameters of a signal, a timer or a process. A sort is None if its name is that of none.
fn parameters<'d>(names: &Names<'d, '_>, of: &Name, kind: Kind) -> Option<&'d [Option<Sort>]> {
    let name = of.text.as_str();
    match kind {
        Kind::Process => Some(names.process(name)?.sorts.as_slice()),
        _ => Some(names.signal(name)?.sorts.as_slice()),
    }
}

/// The sort of the parameter of this number, from 0.
pub fn parameter(names: &Names<'_, '_>, of: &Name, kind: Kind, number: usize) -> Option<Sort> {
    *parameters(names, of, kind)?.get(number)?
}

/// Of a name with more or fewer values than it has parameters.
pub fn applied_advice(
    alloc: Global,
    names: &Names<'_, '_>,
    name: &Name,
    kind: Kind,
    values: usize,
) -> Result<Option<Advice>, AllocError> {
    let Some(parameters) = parameters(names, name, kind) else {
        return Ok(None);
    };
    if parameters.len() == values {
        return Ok(None);
    }
    let word = name.text.as_str();
    let wanted = counted(alloc, parameters.len(), "parameter")?;
    let wanted = wanted.as_str();
    let told = counted(alloc, values, "value")?;
    let told = told.as_str();
    Ok(Some(Advice {
        text: format!(in alloc;
            "`{word}` has {wanted}, and is given {told}. Write one value for each parameter."
        )?,
    }))
}

/// So many things, as text.
fn counted(alloc: Global, count: usize, thing: &str) -> Result<String, AllocError> {
    match count {
        0 => format!(in alloc; "no {thing}"),
        1 => format!(in alloc; "one {thing}"),
        _ => format!(in alloc; "{count} {thing}s"),
    }
}

/// Of a signal in an input with more places than it has parameters.
pub fn received_advice(
    alloc: Global,
    names: &Names<'_, '_>,
    name: &Name,
    places: usize,
) -> Result<Option<Advice>, AllocError> {
    let Some(parameters) = parameters(names, name, Kind::Stimulus) else {
        return Ok(None);
    };
    if places <= parameters.len() {
        return Ok(None);
    }
    let word = name.text.as_str();
    let wanted = counted(alloc, parameters.len(), "parameter")?;
    let wanted = wanted.as_str();
    let told = counted(alloc, places, "place")?;
    let told = told.as_str();
    Ok(Some(Advice {
        text: format!(in alloc;
            "`{word}` has {wanted}, and this input has {told} for variables. Write one variable for each parameter at \
             most."
        )?,
    }))
}

/// Of a variable that takes a value of another sort.
pub fn taking_advice(
    alloc: Global,
    names: &Names<'_, '_>,
    variable: &Name,
    signal: &Name,
    number: usize,
) -> Result<Option<Advice>, AllocError> {
    let word = variable.text.as_str();
    let told = sort_of_name(names, word);
    let wanted = parameter(names, signal, Kind::Stimulus, number);
    let (Some(told), Some(wanted)) = (told, wanted) else {
        return Ok(None);
    };
    if OperandSort::of_sort(told) == OperandSort::of_sort(wanted) {
        return Ok(None);
    }
    let told = one_of(told);
    let wanted = one_of(wanted);
    let signal = signal.text.as_str();
    let number = number.saturating_add(1);
    Ok(Some(Advice {
        text: format!(in alloc;
            "`{word}` is {told}, and parameter {number} of `{signal}` is {wanted}. Name a variable of its sort."
        )?,
    }))
}

/// Of a timer without a duration that is set without a time.
pub fn alone_advice(
    alloc: Global,
    names: &Names<'_, '_>,
    timer: &Name,
) -> Result<Option<Advice>, AllocError> {
    let word = timer.text.as_str();
    let Some(entry) = names.signal(word) else {
        return Ok(None);
    };
    match entry.kind {
        SignalKind::Timer { duration: None } => Ok(Some(Advice {
            text: format!(in alloc;
                "`{word}` has no duration of its own, and no time is given. Write `set(now + 5, {word})`, or define it \
                 as `timer {word} := 5;`."
            )?,
        })),
        _ => Ok(None),
    }
}
