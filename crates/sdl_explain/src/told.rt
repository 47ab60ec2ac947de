//! What is said of a refusal, and of other faults beside it.

ghost use Rattle.std.specs.Prelude.{IfOk};
ghost use Rattle.sdl_build.specs.declared.error.BuildError.{BuildError};
ghost use Rattle.sdl_explain.specs.Told.{AreTold, IsFaultsText, IsLinesText, TellsFault, TellsLine};
ghost use Rattle.sdl_script.specs.declared.script.ScriptError.{ScriptError};

use crate::build::explain_build;
use crate::others::{other_faults, other_lines};
use crate::script::explain_script;
use explain_syntax::{Origin, push_more};
use sdl_build::BuildError;
use sdl_script::ScriptError;
use std::alloc::{AllocError, Global};

/// Explains why a specification has no system: what is said of this fault, then of others that don't follow from it, and
/// how many more of these were found.
pub fn faults_text(
    alloc: Global,
    specification: &[u8],
    origin: &Origin<'_>,
    fault: &BuildError,
) -> Result<Vec<u8>, AllocError>
    ensures { IfOk result (λ text. IsFaultsText specification.now origin.now fault.now text.items) }
{
    let first = explain_build(alloc, specification, fault)?;
    let mut text = first.text(alloc, origin)?;
    let others = other_faults(alloc, specification, fault)?;
    let told = fault_messages(alloc, specification, origin, &others.told)?;
    text.extend_from_slice(&told)?;
    push_more(alloc, &mut text, origin, others.more, others.is_all)?;
    Ok(text)
}

/// The messages of faults of a specification.
fn fault_messages(
    alloc: Global,
    specification: &[u8],
    origin: &Origin<'_>,
    faults: &[BuildError],
) -> Result<Vec<u8>, AllocError>
    ensures { IfOk result (λ text. AreTold BuildError (TellsFault specification.now) origin.now faults.now text.items) }
{
    let mut all = Vec::new(alloc);
    for fault in faults {
        let message = explain_build(alloc, specification, fault)?;
        let text = message.text(alloc, origin)?;
        all.extend_from_slice(&text)?;
    }
    Ok(all)
}

/// Explains why a script for a specification is refused: what is said of this line, then of others that are refused, and
/// how many more of these were found.
pub fn lines_text(
    alloc: Global,
    specification: &[u8],
    script: &[u8],
    origin: &Origin<'_>,
    fault: ScriptError,
) -> Result<Vec<u8>, AllocError>
    ensures { IfOk result (λ text. IsLinesText specification.now script.now origin.now fault text.items) }
{
    let first = explain_script(alloc, specification, script, fault)?;
    let mut text = first.text(alloc, origin)?;
    let others = other_lines(alloc, specification, script, fault)?;
    let told = line_messages(alloc, specification, script, origin, &others.told)?;
    text.extend_from_slice(&told)?;
    push_more(alloc, &mut text, origin, others.more, others.is_all)?;
    Ok(text)
}

/// The messages of lines of a script.
fn line_messages(
    alloc: Global,
    specification: &[u8],
    script: &[u8],
    origin: &Origin<'_>,
    faults: &[ScriptError],
) -> Result<Vec<u8>, AllocError>
    ensures { IfOk result (λ text. AreTold ScriptError (TellsLine script.now) origin.now faults.now text.items) }
{
    let mut all = Vec::new(alloc);
    for fault in faults {
        let message = explain_script(alloc, specification, script, *fault)?;
        let text = message.text(alloc, origin)?;
        all.extend_from_slice(&text)?;
    }
    Ok(all)
}
