//! Whether what was taken was sent before.

ghost use Rattle.std.specs.Prelude.{◌≡◌, ◌+◌, ◌≤◌, IfOk, IfSome, IsTrue, length};
ghost use Rattle.settle_checks.specs.Crossings.{CanUse, Covers, Uses};

use crate::summing::crossings::{Crossing, Way};
use crate::summing::flows::is_same_pid;
use std::alloc::AllocError;

/// Whether by each time no more signals were taken than were sent, between each two of each name. Where it answers true it
/// is so. It refuses nothing if each signal that was taken was sent at that time or before.
pub fn are_covered(sent: Vec<Crossing>, taken: Vec<Crossing>) -> Result<bool, AllocError>
    ensures { IfOk result (λ covered. IsTrue covered → Covers sent.items taken.items) }
{
    let mut left = sent;
    let mut due = taken;
    left.sort_by_key(|one: &Crossing| one.way)?;
    due.sort_by_key(|one: &Crossing| one.way)?;
    Ok(use_all(&mut left, &due))
}

/// Lets all that was taken use up what was sent, one after the other. False: there is not enough.
fn use_all(left: &mut [Crossing], taken: &[Crossing]) -> bool
    ensures { IsTrue result → Covers left.old taken.now }
{
    let mut place = 0;
    for one in taken {
        let Some(next) = use_for(left, place, *one) else {
            return false;
        };
        place = next;
    }
    true
}

/// Lets what was taken use up what was sent, from this place on, and answers the place of the last. None: there is not
/// enough.
fn use_for(left: &mut [Crossing], from: usize, taken: Crossing) -> Option<usize>
    ensures used { IfSome result (λ place. Uses taken.way taken.count left.old left.new) }
    ensures len { length left.new ≡ length left.old }
{
    let mut rest = taken.count;
    for place in place_for(left, from, taken.way)..left.len() {
        if !can_use(left[place].way, taken.way) {
            return none_left(rest, place);
        }
        let part = left[place].count.min(rest);
        left[place] = less(left[place], part);
        rest -= part;
        // What is left at this place may be taken later.
        if rest == 0 {
            return Some(place);
        }
    }
    none_left(rest, left.len())
}

/// The place, if nothing is left that was taken.
fn none_left(rest: u64, place: usize) -> Option<usize>
    ensures { IfSome result (λ at. rest ≡ 0) }
{
    if rest == 0 { Some(place) } else { None }
}

/// The same with so many signals fewer.
fn less(one: Crossing, part: u64) -> Crossing
    requires { part ≤ one.count }
    ensures way { result.way ≡ one.way }
    ensures count { result.count + part ≡ one.count }
{
    Crossing {
        way: one.way,
        count: one.count - part,
    }
}

/// Whether a signal that was taken may be one that was sent: sender, receiver and name are the same, and it wasn't taken
/// before.
fn can_use(sent: Way, taken: Way) -> bool
    ensures { IsTrue result → CanUse sent taken }
{
    is_same_pid(sent.from, taken.from)
        && sent.to == taken.to
        && sent.name.0 == taken.name.0
        && sent.at <= taken.at
}

/// The first place, from this one on, of what isn't on a way before that of this signal, whatever its time is.
fn place_for(all: &[Crossing], from: usize, way: Way) -> usize {
    for place in from..all.len() {
        if !is_before(all[place].way, way) {
            return place;
        }
    }
    all.len()
}

/// Whether the one goes to an earlier receiver than the other, or from an earlier sender, or has an earlier name.
fn is_before(one: Way, other: Way) -> bool {
    if one.to != other.to {
        return one.to < other.to;
    }
    if !is_same_pid(one.from, other.from) {
        return one.from < other.from;
    }
    one.name.0 < other.name.0
}
