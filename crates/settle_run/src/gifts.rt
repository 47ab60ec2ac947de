//! Whether instances began with the values that their creates gave them (Z.102: create, formal parameter).

ghost use Rattle.std.specs.Prelude.{◌≡◌, All, IsTrue, OnOk};
ghost use Rattle.settle_run.specs.Gifts.{AreAllGiven, GetsThese, IsGivenOne, given_by};

use port_model::{Pid, Values};
use run_record::{Record, RunError};
use std::alloc::{AllocError, Global};
use threads_instance::{Child, Gifts};

/// How many numbers there are.
const MOST_NUMBERS: usize = 1_000;

/// Looks whether each instance began with the values that its create gave it, and none with which the system begins with
/// any. Lost: with the number of an instance that didn't, or that gave a child other values than those with which it began.
pub fn all_given(alloc: Global, records: &[Record], gifts: &[Gifts]) -> Result<(), RunError>
    ensures { OnOk result (AreAllGiven records.now gifts.now) }
{
    let places = places_of(alloc, records)?;
    for k in 0..records.len() {
        if k >= gifts.len() {
            return Err(RunError::Lost(records[k].pid()));
        }
        if !is_given(places.as_slice(), gifts, &records[k], &gifts[k]) {
            return Err(RunError::Lost(records[k].pid()));
        }
    }
    Ok(())
}

/// For each number the place of its record. What is found there is compared, so it needs no clause.
fn places_of(alloc: Global, records: &[Record]) -> Result<Vec<usize>, AllocError> {
    let mut places = Vec::with_capacity(alloc, MOST_NUMBERS + 1)?;
    for _ in 0..=MOST_NUMBERS {
        places.push(0)?;
    }
    for (place, trace) in records.iter().enumerate() {
        if let Some(at) = places.get_mut(trace.pid() as usize) {
            *at = place;
        }
    }
    Ok(places)
}

/// Whether the instance of a record began with the values of its number, and gave its children those of theirs.
fn is_given(places: &[usize], gifts: &[Gifts], trace: &Record, own: &Gifts) -> bool
    ensures { IsTrue result → IsGivenOne (given_by places.now gifts.now) trace.now own.now.given own.now.children.items }
{
    begins_with(places, gifts, trace.pid(), &own.given)
        && (trace.parent() != Pid::Null || own.given.is_empty())
        && are_given(places, gifts, own.children.as_slice())
}

/// Whether these children got the values of their numbers.
fn are_given(places: &[usize], gifts: &[Gifts], children: &[Child]) -> bool
    ensures { IsTrue result → All (GetsThese (given_by places.now gifts.now)) children.now }
{
    for child in children {
        if !begins_with(places, gifts, child.number, &child.values) {
            return false;
        }
    }
    true
}

/// Whether these are the values with which the instance of this number began.
fn begins_with(places: &[usize], gifts: &[Gifts], number: u32, values: &Values) -> bool
    ensures { IsTrue result → values.now ≡ given_by places.now gifts.now number }
{
    let number = number as usize;
    if number >= places.len() {
        return false;
    }
    let place = places[number];
    if place >= gifts.len() {
        return false;
    }
    gifts[place].given == *values
}
