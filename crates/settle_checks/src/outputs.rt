//! How many signals were sent to each instance.

ghost use Rattle.std.specs.Prelude.{◌≡◌, ◌++◌, ◌∷◌, ◌+◌, [], List, false, IfOk, IfSome, IsTrue, length, slice_index_or};
ghost use Rattle.std.specs.Option.{option_map};
ghost use Rattle.settle_checks.specs.Outputs.{AreTallied};
ghost use Rattle.settle_checks.specs.declared.outputs.Outline.{Outline};
ghost use Rattle.settle_checks.specs.declared.outputs.Outline.TheVariants.{Sends};

use crate::numbers::MOST_INSTANCES;
use std::alloc::{AllocError, Global};

/// How many signals a record sends to one instance: in all, and since it created that one, if it did.
#[derive(Clone, Copy)]
pub struct Tally {
    pub all: u64,
    pub since: Option<u64>,
}

/// Whom an event sends a signal, or whom it creates.
#[derive(Clone, Copy)]
pub enum Outline {
    Sends(u32),
    Creates(u32),
    Other,
}

/// A row in which nothing is sent.
pub fn no_tallies(alloc: Global) -> Result<Vec<Tally>, AllocError>
    ensures { IfOk result (λ row. AreTallied [] row.items) }
{
    let mut row = Vec::new(alloc);
    for _number in 0..MOST_INSTANCES + 1 {
        row.push(Tally {
            all: 0,
            since: None,
        })?;
    }
    Ok(row)
}

/// Notes an output to an instance. False: more than can be counted.
pub fn note_output(row: &mut [Tally], number: u32) -> bool
    ensures noted { IsTrue result → (outlines : List Outline) → AreTallied outlines row.old
        → AreTallied (outlines ++ Sends number ∷ []) row.new }
    ensures len { length row.new ≡ length row.old }
{
    let index = number as usize;
    if index >= row.len() {
        return true;
    }
    let Some(tally) = one_more(row[index]) else {
        return false;
    };
    row[index] = tally;
    true
}

/// One signal more. None: more than can be counted.
fn one_more(tally: Tally) -> Option<Tally>
    ensures { IfSome result (λ more. (more.all ≡ tally.all + 1)
        × (more.since ≡ option_map (λ count. count + 1) tally.since)) }
{
    let all = tally.all.checked_add(1)?;
    let since = match tally.since {
        None => None,
        Some(count) => Some(count.checked_add(1)?),
    };
    Some(Tally { all, since })
}

/// How many signals were put into the port of this number.
pub fn put_to(sent: &[u64], number: usize) -> u64
    ensures { result ≡ slice_index_or sent.now number 0 }
{
    match sent.get(number) {
        None => 0,
        Some(put) => *put,
    }
}

/// Whether the script names the number.
pub fn is_named(named: &[bool], number: usize) -> bool
    ensures { result ≡ slice_index_or named.now number false }
{
    match named.get(number) {
        None => false,
        Some(is) => *is,
    }
}
