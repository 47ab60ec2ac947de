//! What values a line of a script gives for the parameters of a signal.

use build_definitions::SignalEntry;
use sdl_system::Sort;
use std::alloc::{AllocError, Global};

/// Says which values a signal has, with an example, and where it is defined.
pub fn values_text(alloc: Global, entry: &SignalEntry<'_>) -> Result<String, AllocError> {
    let name = entry.name.text.as_str();
    let place = entry.name.place;
    if entry.sorts.is_empty() {
        return format!(in alloc; "`{name}` has no values: `0 {name}`. It is defined at {place}.");
    }
    let sorts = listed(alloc, &entry.sorts, Said::Sort)?;
    let sorts = sorts.as_str();
    let values = listed(alloc, &entry.sorts, Said::Example)?;
    let values = values.as_str();
    format!(in alloc;
        "`{name}` has the values ({sorts}), as in `0 {name}({values})`. It is defined at {place}."
    )
}

/// How a parameter is told.
#[derive(Clone, Copy, PartialEq, Eq)]
enum Said {
    Sort,
    /// A value of its sort.
    Example,
}

/// The parameters of these sorts, with commas.
fn listed(alloc: Global, sorts: &[Option<Sort>], said: Said) -> Result<String, AllocError> {
    let mut text = String::new(alloc);
    for sort in sorts {
        if !text.is_empty() {
            text.push_str(", ")?;
        }
        text.push_str(said_text(*sort, said))?;
    }
    Ok(text)
}

fn said_text(sort: Option<Sort>, said: Said) -> &'static str {
    let (name, value) = match sort {
        Some(Sort::Boolean) => ("Boolean", "true"),
        Some(Sort::Integer) | None => ("Integer", "3"),
        Some(Sort::Natural) => ("Natural", "1"),
        Some(Sort::Pid) => ("Pid", "#1"),
        Some(Sort::Time) => ("Time", "9"),
        Some(Sort::Duration) => ("Duration", "5"),
    };
    if said == Said::Sort { name } else { value }
}
