//! The atomic steps of a port. Each changes what one pass knows and nothing else, and keeps the rule of
//! `specs/Rule.antt`.
ghost use Rattle.std.specs.Prelude.{◌≡◌, ◌+◌, [], true, MatchOption, MatchResult};
ghost use Rattle.input_port.specs.QueueWords.{desk, gathers, last_gathered, owner_of, sender, whole, without_last, Adds, Draws, HasGathered, IsFresh, IsSegPassOf, IsTimely};

use crate::queue::rule::{Ends, Gathers, NewSender, Pass, Popped, Pushed, Queue, SendsAgain};
use port_model::Placed;
use std::alloc::{AllocError, Global};
use std::sync::Wait;

/// A queue with nothing in it, and its first pass. Refused for lack of memory.
#[tactic(auto, using(crate::proofs::Moves::begins))]
pub fn open(alloc: Global) -> Result<(Queue, Pass), AllocError>
    ensures { MatchResult result (λ made. IsSegPassOf made.0 made.1 × (made.1.me.view.client ≡ whole)) (λ _. Unit {0}) }
{
    Queue::with_rule(alloc)
}

/// Split of the first pass, the desk's. Before: it gives and takes. After: the pass is the owner's, and the new one the
/// desk's.
#[tactic(auto, using(crate::proofs::Moves::forks_ends))]
pub fn split_ends(queue: &Queue, pass: &mut Pass) -> Pass
    requires queue { IsSegPassOf queue.now pass.old }
    requires rights { (pass.old.me.view.client.gives ≡ true) × (pass.old.me.view.client.takes ≡ true) }
    ensures queue { IsSegPassOf queue.now pass.new × IsSegPassOf queue.now result }
    ensures owner { pass.new.me.view.client ≡ owner_of pass.old.me.view.client }
    ensures desk { result.me.view.client ≡ desk pass.old.me.view.client.number }
{
    queue.another::<Ends>(pass)
}

/// Split of the desk's pass. Before: the desk has given the numbers up to some n. After: n + 1 is given too, and the
/// new pass puts under it and has put nothing.
#[tactic(auto, using(crate::proofs::Moves::forks_next))]
pub(crate) fn split_sender(queue: &Queue, pass: &mut Pass) -> Pass
    requires queue { IsSegPassOf queue.now pass.old }
    requires rights { pass.old.me.view.client.gives ≡ true }
    ensures queue { IsSegPassOf queue.now pass.new × IsSegPassOf queue.now result }
    ensures desk { pass.new.me.view.client ≡ desk (pass.old.me.view.client.number + 1) }
    ensures sender { result.me.view.client ≡ sender (pass.old.me.view.client.number + 1) 0 [] }
{
    queue.another::<NewSender>(pass)
}

/// Push, by a sender's pass: the core's put or expiry. Before: the sender has seen a beginning of the put list, in
/// which all its entries stand. After: the entry stands behind all that it had seen, and is the next of its number.
/// Where the push is refused, nothing has changed.
#[inline(always)]
pub(crate) fn push<R: Wait>(
    rt: &R,
    queue: &Queue,
    pass: &mut Pass,
    placed: Placed,
) -> Result<(), Placed>
    requires queue { IsSegPassOf queue.now pass.old }
    requires rights { pass.old.me.view.client.sends ≡ true }
    requires number { placed.number ≡ pass.old.me.view.client.number }
    requires count { placed.count ≡ pass.old.me.view.client.count + 1 }
    requires timely { IsTimely placed }
    ensures queue { IsSegPassOf queue.now pass.new }
    ensures pushed { MatchResult result (λ _. Adds pass.old.me.view.client placed pass.new.me.view.client)
        (λ back. (back ≡ placed) × (pass.new.me.view.client ≡ pass.old.me.view.client)) }
{
    queue.push_as::<Pushed, R>(rt, pass, placed)
}

/// Pop, by the owner's pass. Before: the drawn entries begin the put list, and the known list. With an entry: it is the
/// next of the put list, and is drawn. With none, a fresh point: the drawn entries are the whole put list, and so all
/// of the known list; no pass has changed.
#[inline(always)]
pub(crate) fn pop<R: Wait>(rt: &R, queue: &Queue, pass: &mut Pass) -> Option<Placed>
    requires queue { IsSegPassOf queue.now pass.old }
    requires rights { pass.old.me.view.client.takes ≡ true }
    ensures queue { IsSegPassOf queue.now pass.new }
    ensures popped { MatchOption result ((pass.new.me.view.client ≡ pass.old.me.view.client)
        × IsFresh pass.old.me.view.client [])
        (λ placed. Draws pass.old.me.view.client placed pass.new.me.view.client) }
{
    // Nobody else pops, so only a push that links the next block can be in the way of the first attempt.
    let first = queue.head(pass);
    match queue.try_pop_from::<Popped, R>(rt, pass, first) {
        Ok(popped) => popped,
        Err(_) => queue.pop_as::<Popped, R>(rt, pass),
    }
}

/// A look by the owner's pass: two loads. Before: the drawn entries begin the put list, and the known list. If the queue
/// had nothing at one moment of the call, that was a fresh point. No pass has changed.
#[inline(always)]
pub(crate) fn is_empty(queue: &Queue, pass: &mut Pass) -> bool
    requires queue { IsSegPassOf queue.now pass.old }
    requires rights { pass.old.me.view.client.takes ≡ true }
    ensures queue { IsSegPassOf queue.now pass.new }
    ensures same { pass.new.me.view.client ≡ pass.old.me.view.client }
    ensures fresh { result ≡ true → IsFresh pass.old.me.view.client [] }
{
    queue.is_empty_as::<Popped>(pass)
}

/// Taking a sender's pass back, by the owner's. Before: each has seen a beginning of the put list. After: the owner
/// knows the longer of the two, and the sender's number and count stand among the gathered; its pass is spent.
#[tactic(auto, using(crate::proofs::Moves::merges))]
pub(crate) fn take_back(queue: &Queue, pass: &mut Pass, other: Pass)
    requires queue { IsSegPassOf queue.now pass.old × IsSegPassOf queue.now other }
    requires rights { (pass.old.me.view.client.takes ≡ true) × (other.me.view.client.sends ≡ true) }
    ensures queue { IsSegPassOf queue.now pass.new }
    ensures gathered { pass.new.me.view.client ≡ gathers pass.old.me.view.client other.me.view.client }
{
    queue.absorb::<Gathers>(pass, other);
}

/// Split of the owner's pass. Before: a sender has been gathered. After: it is gathered no more, and the new pass puts
/// under its number, with its count, and has seen all that the owner knows.
#[tactic(auto, using(crate::proofs::Moves::forks_again))]
pub(crate) fn split_again(queue: &Queue, pass: &mut Pass) -> Pass
    requires queue { IsSegPassOf queue.now pass.old }
    requires rights { pass.old.me.view.client.takes ≡ true }
    requires gathered { HasGathered pass.old.me.view.client.gathered }
    ensures queue { IsSegPassOf queue.now pass.new × IsSegPassOf queue.now result }
    ensures owner { pass.new.me.view.client ≡ without_last pass.old.me.view.client }
    ensures sender { result.me.view.client ≡ last_gathered pass.old.me.view.client }
{
    queue.another::<SendsAgain>(pass)
}
