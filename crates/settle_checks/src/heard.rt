//! Whether all that the environment sends was put.

ghost use Rattle.std.specs.Prelude.{◌≡◌, ◌++◌, ◌∷◌, [], List, All, IfOk, IfSome, IsTrue, length, map, slice_index_or};
ghost use Rattle.settle_checks.specs.declared.outputs.Outline.{Outline};
ghost use Rattle.run_record.specs.Record.{RecordValue};
ghost use Rattle.settle_checks.specs.Outputs.{AreNamed, AreTallied, IsEnoughHeard, outline_to, targets_of};
ghost use Rattle.settle_meaning.specs.Puts.{Heard, IsNamed, MayMissHeard};

use crate::living::is_null;
use crate::outputs::{Tally, is_named, no_tallies, note_output, put_to};
use run_record::Record;
use sdl_system::Target;
use std::alloc::{AllocError, Global};

/// Whether of all that the environment sends to each instance so many signals were put as `sent` has at its number, or
/// those that are missing may be. `targets` has where the signals of the script went, and `named` the numbers that the
/// script names.
pub fn all_heard(
    alloc: Global,
    targets: &[Target],
    sent: &[u64],
    named: &[bool],
    records: &[Record],
) -> Result<bool, AllocError>
    ensures { IfOk result (λ put. IsTrue put → (heard : List Heard) → targets_of heard ≡ targets.now
        → AreNamed heard named.now
        → All (λ (to : RecordValue). IsEnoughHeard (IsNamed heard) heard to (slice_index_or sent.now to.pid 0))
        records.now) }
{
    let Some(row) = heard_tallies(alloc, targets)? else {
        return Ok(false);
    };
    for to in records {
        if !is_enough(&row, sent, named, to) {
            return Ok(false);
        }
    }
    Ok(true)
}

/// How many signals go to each instance, by number. None: more than can be counted.
fn heard_tallies(alloc: Global, targets: &[Target]) -> Result<Option<Vec<Tally>>, AllocError>
    ensures { IfOk result (λ row. IfSome row (λ tallies. AreTallied (map outline_to targets.now) tallies.items)) }
{
    let mut row = no_tallies(alloc)?;
    for target in targets {
        if !note_target(&mut row, *target) {
            return Ok(None);
        }
    }
    Ok(Some(row))
}

/// Notes where a signal went. False: more than can be counted.
fn note_target(row: &mut [Tally], target: Target) -> bool
    ensures noted { IsTrue result → (outlines : List Outline) → AreTallied outlines row.old
        → AreTallied (outlines ++ outline_to target ∷ []) row.new }
    ensures len { length row.new ≡ length row.old }
{
    match target {
        Target::Instance(number) => note_output(row, number),
        Target::Env => true,
        Target::Null => true,
        Target::Nobody => true,
    }
}

/// Whether so many signals were put as the row tells, or those that are missing may be.
fn is_enough(row: &[Tally], sent: &[u64], named: &[bool], to: &Record) -> bool
    ensures { IsTrue result → (heard : List Heard) → AreTallied (map outline_to (targets_of heard)) row.now
        → AreNamed heard named.now
        → IsEnoughHeard (IsNamed heard) heard to.now (slice_index_or sent.now to.now.pid 0) }
{
    let number = to.pid() as usize;
    if number >= row.len() {
        return false;
    }
    let all = row[number].all;
    all <= put_to(sent, number) || may_miss(named, to)
}

/// Whether the first signals of the environment may be missing.
fn may_miss(named: &[bool], to: &Record) -> bool
    ensures { IsTrue result → (heard : List Heard) → AreNamed heard named.now
        → MayMissHeard (IsNamed heard) to.now }
{
    !is_null(to.parent()) && is_named(named, to.pid() as usize)
}
