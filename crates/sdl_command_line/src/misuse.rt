//! What is said of a word of a command line that is no command and no option.

use crate::option_tip::{command_tip, option_tip};
use clap::Error;
use clap::error::ErrorKind;
use std::alloc::{AllocError, Global};

/// The text of a mistake in these words of a command line. The crate `clap` tells it, with the nearest word that there
/// is. A word of another kind has a tip of its own, and no tip leads to a file with the name of an option.
pub fn mistake_text(alloc: Global, error: &Error, words: &[String]) -> Result<String, AllocError> {
    let said = format!(in alloc; "{error}")?;
    let said = said.as_str();
    let word = quoted(said);
    let tip = match error.kind() {
        ErrorKind::UnknownArgument => option_tip(command_of(words), word),
        ErrorKind::InvalidSubcommand => Some(command_tip(word)),
        _ => return String::from_str(alloc, said),
    };
    let mut text = String::new(alloc);
    push_fault(&mut text, said)?;
    match tip {
        Some(tip) => push_tip(&mut text, tip)?,
        None => push_tips(&mut text, said)?,
    }
    push_usage(&mut text, said)?;
    Ok(text)
}

/// The command of a command line, or what stands in its place.
fn command_of(words: &[String]) -> &str {
    match words.get(1) {
        Some(word) => word.as_str(),
        None => "",
    }
}

/// The word that a mistake quotes first.
fn quoted(said: &str) -> &str {
    said.split("'").nth(1).unwrap_or("")
}

/// Adds the first line, which says what is wrong.
fn push_fault(text: &mut String, said: &str) -> Result<(), AllocError> {
    text.push_str(said.split("\n").next().unwrap_or(""))
}

/// Adds a tip, after an empty line.
fn push_tip(text: &mut String, tip: &str) -> Result<(), AllocError> {
    text.push_str("\n\n  tip: ")?;
    text.push_str(tip)
}

/// Adds the tips that name what there is.
fn push_tips(text: &mut String, said: &str) -> Result<(), AllocError> {
    let mut end = "\n\n";
    for line in said.split("\n") {
        if line.starts_with("  tip: ") && !line.starts_with("  tip: to pass '") {
            text.push_str(end)?;
            text.push_str(line)?;
            end = "\n";
        }
    }
    Ok(())
}

/// Adds the last lines: how the command is used, and where there is more help.
fn push_usage(text: &mut String, said: &str) -> Result<(), AllocError> {
    text.push_str("\n")?;
    let mut is_usage = false;
    for line in said.split("\n") {
        is_usage = is_usage || line.starts_with("Usage: ");
        if is_usage {
            text.push_str("\n")?;
            text.push_str(line)?;
        }
    }
    Ok(())
}
