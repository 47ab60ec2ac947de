//! What fuses are to the port of one thread: a set makes one, an expiry spends one, and at the end each timer's signal
//! that waits gets its own back.
ghost use Rattle.std.specs.Prelude.{◌≡◌, ◌↔◌, ◌⊎◌, ◌+◌, ◌<◌, ◌≤◌, [], length, vec_capacity, IsErrOf, MatchResult};
ghost use Rattle.port_model.specs.Coherence.{IsCoherent};
ghost use Rattle.port_model.specs.PlainPort.{armed_left};
ghost use Rattle.port_model.specs.Port.{set_in};
ghost use Rattle.port_model.specs.Take.{Takes};
ghost use Rattle.port_model.specs.Timers.{with_armed};
ghost use Rattle.port_model.specs.declared.plain_port.TheConstants.{MOST_SETS};
ghost use Rattle.port_model.specs.Calls.{after_draw, after_entry};
ghost use Rattle.port_model.specs.Left.{got_of, AreWaiting, HasItsFuse, IsFused};
ghost use Rattle.port_model.specs.declared.inbox.entry.Entry.TheVariants.{Timer};

use crate::error::PortError;
use crate::got::Got;
use crate::inbox::entry::{Entry, Fuse, FuseParts};
use crate::inbox::placed::Placed;
use crate::plain_port::{PlainPort, PortParts};
use crate::selection::Selection;
use crate::taken::Taken;
use crate::timers::Timers;
use crate::values::{Ticks, TimerKey};
use std::alloc::Global;
use std::collections::VecDeque;

/// Sets a timer of the port `pid`, and gives its fuse. Refused with `SetsSpent` after 2^62 sets, before all else, and
/// for lack of memory.
pub fn set(plain: &mut PlainPort, pid: u32, key: TimerKey, due: Ticks) -> Result<Fuse, PortError>
    ensures set { MatchResult result (λ fuse. (plain.new.state ≡ set_in plain.old.state key due)
        × (fuse ≡ record { pid = pid; key = key; arm = plain.old.state.sets + 1; due = due }))
        (λ error. (plain.new.state ≡ plain.old.state)
        × ((error ≡ PortError.SetsSpent) ⊎ (error ≡ PortError.Memory))) }
    ensures armed { MatchResult result
        (λ fuse. plain.new.armed ≡ with_armed key (plain.old.state.sets + 1) due plain.old.armed)
        (λ _. plain.new.armed ≡ plain.old.armed) }
    ensures spent { IsErrOf result PortError.SetsSpent ↔ (plain.old.state.sets ≡ MOST_SETS) }
{
    if plain.sets_spent() {
        return Err(PortError::SetsSpent);
    }
    let Ok(kept) = key.copied() else {
        return Err(PortError::Memory);
    };
    match plain.set(kept, due) {
        Err(error) => Err(error),
        Ok(arm) => Ok(Fuse::new(pid, key, arm, due)),
    }
}

/// Puts an entry that was drawn into the port of the instance `pid`, into the room that was made. Takes no memory.
pub fn draw(plain: &mut PlainPort, pid: u32, placed: Placed)
    requires { 0 < plain.old.room }
    ensures state { plain.new.state ≡ after_draw pid plain.old.state placed }
    ensures armed { plain.new.armed ≡ plain.old.armed }
{
    let at = placed.at;
    match placed.into_entry() {
        Entry::Signal(item) => plain.put_reserved(item),
        Entry::Timer(fuse) => expire(plain, pid, fuse, at),
    }
}

/// `draw` where nothing waits, and then a take: a signal that is taken at once never lies in the port. That nothing waits
/// is the caller's condition.
#[inline(always)]
pub fn take_drawn(plain: &mut PlainPort, pid: u32, placed: Placed, selection: &Selection) -> Taken
    requires room { 0 < plain.old.room }
    requires empty { plain.old.state.waiting ≡ [] }
    ensures take { Takes selection.now (after_draw pid plain.old.state placed) result plain.new.state }
    ensures armed { plain.new.armed ≡ armed_left result plain.old.armed }
{
    let at = placed.at;
    match placed.into_entry() {
        Entry::Signal(item) => plain.take_put(item, selection),
        Entry::Timer(fuse) => {
            expire(plain, pid, fuse, at);
            plain.take(selection)
        }
    }
}

/// Expires a timer by a fuse that was drawn, into the room that was made. The fuse of another port has no effect.
fn expire(plain: &mut PlainPort, pid: u32, fuse: Fuse, at: Ticks)
    requires { 0 < plain.old.room }
    ensures state { plain.new.state ≡ after_entry pid plain.old.state at (Timer fuse) }
    ensures armed { plain.new.armed ≡ plain.old.armed }
{
    if fuse.pid() == pid {
        let FuseParts { key, arm, due } = fuse.into_parts();
        plain.expire_reserved(key, arm, due, at);
    }
}

/// Takes out all that waits in the port of the instance `pid`, in order, each timer's signal with its fuse. For lack of
/// memory the port comes back.
pub fn into_entries(alloc: Global, pid: u32, plain: PlainPort) -> Result<Vec<Entry>, PlainPort>
    ensures { MatchResult result (λ list. AreWaiting plain.state.waiting pid plain.armed list.items)
        (λ back. back ≡ plain) }
{
    let mut list = Vec::new(alloc);
    if let Err(_) = list.reserve(plain.waiting_len()) {
        return Err(plain);
    }
    let PortParts { waiting, timers } = plain.into_parts();
    Ok(entries(list, pid, waiting, &timers))
}

fn entries(
    mut list: Vec<Entry>,
    pid: u32,
    mut waiting: VecDeque<Got>,
    timers: &Timers,
) -> Vec<Entry>
    requires empty { list.items ≡ [] }
    requires room { length waiting.items ≤ vec_capacity list }
    requires coherent { IsCoherent waiting.items timers.now.timers }
    ensures { AreWaiting waiting.items pid timers.now.armed result.items }
{
    while let Some(got) = waiting.pop_front() {
        list.push_reserved(entry(pid, timers, got));
    }
    list
}

fn entry(pid: u32, timers: &Timers, got: Got) -> Entry
    requires { IsFused timers.now.timers got }
    ensures got { got_of result ≡ got }
    ensures fuse { HasItsFuse pid timers.now.armed result }
{
    match got {
        Got::Signal(item) => Entry::Signal(item),
        Got::Timer(key) => {
            let Some(timer) = timers.get(&key) else {
                unreachable!()
            };
            Entry::Timer(Fuse::new(pid, key, timer.arm, timer.due))
        }
    }
}
