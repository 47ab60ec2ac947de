//! The counts of all ports.

ghost use Rattle.std.specs.Prelude.{◌≡◌, ◌+◌, ◌++◌, ◌∷◌, [], List, All, IfOk, OnOk, vec_len};
ghost use Rattle.run_record.specs.Record.{RecordValue};
ghost use Rattle.settle_checks.specs.Account.{AllAt, AreCountsOf, AreOwnersOf, HavePut};
ghost use Rattle.settle_checks.specs.Gatherings.{AreGatheringsOf, HasGathered, IsGatheredBut};
ghost use Rattle.settle_meaning.specs.Identities.{AreRising};

use crate::gathered::{Counted, Fault, Fixed, Gathering};
use crate::numbers::in_order;
use crate::summing::place_of;
use input_port::Held;
use run_record::{Record, RunError};
use std::alloc::Global;
use std::sync::Wait;
use threads_ports::{Peer, Peers, Run};

/// Lets the port of each record gather its senders of all places, draws it to its end and counts it. So each sender is
/// looked at once, and each port. That the name says what the places have put and who the owners are is the caller's
/// condition. Lost: other signals were drawn from a port than were put, a sender leads to no port of a record, or there
/// are not as many ports as records.
pub fn counts_of<'p, J: Run, K: Fixed, R: Wait + Copy>(
    alloc: Global,
    records: &[Record],
    inboxes: Vec<Held<'p, R>>,
    places: Vec<Peers<J>>,
) -> Result<Vec<Counted<'p, J, K, R>>, RunError>
    requires puts { AllAt (HavePut K.puts) places.items }
    requires owners { AreOwnersOf K.owners J.ports records.now inboxes.items }
    ensures { IfOk result (λ counted. AreCountsOf (vec_len places) records.now counted.items) }
{
    if !in_order(records) {
        return Err(RunError::Lost(0));
    }
    let mut all: Vec<Gathering<'p, J, K, R>> = gatherings_of(alloc, records, inboxes)?;
    let count = gather_all(records, &mut all, places)?;
    count_all(alloc, all, count)
}

/// The port of each record, to gather its senders. Lost: it has gathered some, or there are not as many ports as records.
fn gatherings_of<'p, J: Run, K: Fixed, R: Wait + Copy>(
    alloc: Global,
    records: &[Record],
    inboxes: Vec<Held<'p, R>>,
) -> Result<Vec<Gathering<'p, J, K, R>>, RunError>
    requires { AreOwnersOf K.owners J.ports records.now inboxes.items }
    ensures { IfOk result (λ all. AreGatheringsOf records.now all.items) }
{
    let mut all = Vec::with_capacity(alloc, records.len())?;
    let mut at: u32 = 0;
    for inbox in inboxes {
        let index = at as usize;
        if index >= records.len() {
            return Err(RunError::Lost(0));
        }
        all.push(gathering_of(at, records[index].pid(), inbox)?)?;
        let Some(next) = at.checked_add(1) else {
            return Err(RunError::Lost(0));
        };
        at = next;
    }
    if all.len() != records.len() {
        return Err(RunError::Lost(0));
    }
    Ok(all)
}

/// The port of one record, to gather its senders.
fn gathering_of<'p, J: Run, K: Fixed, R: Wait + Copy>(
    at: u32,
    number: u32,
    inbox: Held<'p, R>,
) -> Result<Gathering<'p, J, K, R>, RunError>
    requires owner { inbox.owner ≡ K.owners at }
    requires port { inbox.owner.port ≡ J.ports number }
    ensures at { IfOk result (λ gathering. gathering.at ≡ at) }
    ensures number { IfOk result (λ gathering. gathering.number ≡ number) }
{
    match Gathering::new(at, number, inbox) {
        Ok(gathering) => Ok(gathering),
        Err(fault) => Err(error_of(fault)),
    }
}

/// Gathers the senders of all places at their ports. Answers how many places there are.
fn gather_all<J: Run, K: Fixed, R: Wait + Copy>(
    records: &[Record],
    all: &mut Vec<Gathering<'_, J, K, R>>,
    places: Vec<Peers<J>>,
) -> Result<u32, RunError>
    requires rising { AreRising 0 records.now }
    requires puts { AllAt (HavePut K.puts) places.items }
    requires of { AreGatheringsOf records.now all.old.items }
    ensures of { OnOk result (AreGatheringsOf records.now all.new.items) }
    ensures gathered { IfOk result (λ count. All (HasGathered K.puts count) all.new.items) }
    ensures count { IfOk result (λ count. count ≡ vec_len places) }
{
    let mut place: u32 = 0;
    for peers in places {
        gather_place(records, all, place, peers)?;
        let Some(next) = place.checked_add(1) else {
            return Err(RunError::Lost(0));
        };
        place = next;
    }
    Ok(place)
}

/// Gathers the senders of one place at their ports.
fn gather_place<J: Run, K: Fixed, R: Wait + Copy>(
    records: &[Record],
    all: &mut Vec<Gathering<'_, J, K, R>>,
    place: u32,
    peers: Peers<J>,
) -> Result<(), RunError>
    requires rising { AreRising 0 records.now }
    requires puts { HavePut K.puts place peers }
    requires of { AreGatheringsOf records.now all.old.items }
    requires before { All (HasGathered K.puts place) all.old.items }
    ensures of { OnOk result (AreGatheringsOf records.now all.new.items) }
    ensures gathered { OnOk result (All (HasGathered K.puts (place + 1)) all.new.items) }
{
    let mut peers = peers;
    while let Some(peer) = peers.release() {
        gather_peer(records, all, place, peer, &peers)?;
    }
    Ok(())
}

/// Gathers one sender of a place at its port. `rest` are those of the place that are to be gathered yet. Lost: it leads to
/// no port of a record, or one of the rest leads to the same port.
fn gather_peer<J: Run, K: Fixed, R: Wait + Copy>(
    records: &[Record],
    all: &mut Vec<Gathering<'_, J, K, R>>,
    place: u32,
    peer: Peer,
    rest: &Peers<J>,
) -> Result<(), RunError>
    requires rising { AreRising 0 records.now }
    requires port { peer.sender.port ≡ J.ports peer.number }
    requires of { AreGatheringsOf records.now all.old.items }
    requires before { All (IsGatheredBut K.puts place (rest.now ++ (peer.number, peer.sender) ∷ [])) all.old.items }
    ensures of { OnOk result (AreGatheringsOf records.now all.new.items) }
    ensures after { OnOk result (All (IsGatheredBut K.puts place rest.now) all.new.items) }
{
    let Peer { number, sender } = peer;
    // Each number has one sender, but no clause of `release` says so.
    if rest.is_known(number) {
        return Err(RunError::Lost(number));
    }
    let Some(at) = place_of(records, number) else {
        return Err(RunError::Lost(number));
    };
    let Some(gathering) = all.get_mut(at) else {
        return Err(RunError::Lost(number));
    };
    match gathering.gather(place, sender) {
        Ok(()) => Ok(()),
        Err(fault) => Err(error_of(fault)),
    }
}

/// Counts all ports, once they have gathered the senders of so many places.
fn count_all<'p, J: Run, K: Fixed, R: Wait + Copy>(
    alloc: Global,
    all: Vec<Gathering<'p, J, K, R>>,
    places: u32,
) -> Result<Vec<Counted<'p, J, K, R>>, RunError>
    requires { All (HasGathered K.puts places) all.items }
    ensures { IfOk result (λ counted. (records : List RecordValue) → AreGatheringsOf records all.entry.items
        → AreCountsOf places records counted.items) }
{
    let mut counted = Vec::with_capacity(alloc, all.len())?;
    for gathering in all {
        counted.push(count_of(gathering, places)?)?;
    }
    Ok(counted)
}

/// Counts one port, once it has gathered the senders of so many places.
fn count_of<'p, J: Run, K: Fixed, R: Wait + Copy>(
    gathering: Gathering<'p, J, K, R>,
    places: u32,
) -> Result<Counted<'p, J, K, R>, RunError>
    requires { HasGathered K.puts places gathering }
    ensures at { IfOk result (λ one. one.at ≡ gathering.entry.at) }
    ensures number { IfOk result (λ one. one.number ≡ gathering.entry.number) }
    ensures places { IfOk result (λ one. one.places ≡ places) }
{
    match gathering.count(places) {
        Ok(counted) => Ok(counted),
        Err(fault) => Err(error_of(fault)),
    }
}

/// Why there is no report, where senders can't be gathered.
fn error_of(fault: Fault) -> RunError {
    match fault {
        Fault::Memory => RunError::Memory,
        Fault::Lost(number) => RunError::Lost(number),
    }
}
