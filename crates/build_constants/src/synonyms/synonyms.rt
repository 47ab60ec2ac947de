//! What all synonyms of a specification come to, and the faults in their definitions.

ghost use Rattle.std.specs.Prelude.{◌≡◌, flat_map, map, IfOk, OnOk};
ghost use Rattle.build_names.specs.Faults.{Notes};
ghost use Rattle.build_constants.specs.SettledSynonyms.{AreConstants, named_by, synonym_faults};

use crate::synonyms::known::settle_all;
use crate::synonyms::synonym::Synonym;
use build_expressions::Constant;
use build_names::Faults;
use std::alloc::{AllocError, Global};

/// Finds the constant of each synonym of a specification, by its number: its place in this list, in the order of the
/// text. One that is defined by itself, directly or by others, or that rests on such a synonym, has no value.
///
/// Noted are the faults of each definition, as `constant` has them: so `BadCount` at the first token of one without a
/// value.
pub fn synonym_constants<'t>(
    alloc: Global,
    synonyms: &[Synonym<'_, '_, 't>],
    faults: &mut Faults<'t>,
) -> Result<Vec<Constant>, AllocError>
    ensures constants { IfOk result (λ constants. AreConstants synonyms.now constants.items) }
    ensures noted { IfOk result (λ constants. Notes faults.old faults.new
        (flat_map (synonym_faults constants.items) synonyms.now)) }
{
    let named = all_named(alloc, synonyms)?;
    let constants = settle_all(alloc, synonyms, &named)?;
    note_faults(alloc, synonyms, &constants, faults)?;
    Ok(constants)
}

/// The synonyms that each names.
fn all_named(alloc: Global, synonyms: &[Synonym<'_, '_, '_>]) -> Result<Vec<Vec<usize>>, AllocError>
    ensures { IfOk result (λ named. map (λ numbers. numbers.items) named.items ≡ map named_by synonyms.now) }
{
    let mut named = Vec::new(alloc);
    for synonym in synonyms {
        named.push(synonym.named(alloc)?)?;
    }
    Ok(named)
}

/// Notes the faults of all definitions, where the synonyms come to these constants.
fn note_faults<'t>(
    alloc: Global,
    synonyms: &[Synonym<'_, '_, 't>],
    constants: &[Constant],
    faults: &mut Faults<'t>,
) -> Result<(), AllocError>
    ensures { OnOk result (Notes faults.old faults.new (flat_map (synonym_faults constants.now) synonyms.now)) }
{
    for synonym in synonyms {
        synonym.constant(alloc, constants, faults)?;
    }
    Ok(())
}
