//! Signals that passed between an instance and others, counted.

ghost use Rattle.std.specs.Prelude.{◌≡◌, ◌+◌, ◌++◌, ◌∷◌, [], List, IfOk, IfSome, IsTrue, OnErr, OnOk, if◌then◌else◌, length};
ghost use Rattle.port_model.specs.Same.{same_pid};
ghost use Rattle.port_model.specs.declared.values.pid.Pid.TheVariants.{Of};
ghost use Rattle.settle_checks.specs.Flows.{AreFlows, IsPlaceOf, counted, is_with};
ghost use Rattle.settle_checks.specs.declared.summing.flows.Pass.{Pass};

use port_model::{Pid, SignalId};
use std::alloc::{AllocError, Global};
use std::marker::Model;

/// How many places are remembered.
const SLOTS: usize = 1_024;

/// From so many flows on places are remembered.
const MANY: usize = 8;

/// A signal that passed: whom it went to, or who sent it; its name; and when.
#[derive(Clone, Copy)]
pub struct Pass {
    pub peer: Pid,
    pub name: SignalId,
    pub at: u64,
}

/// So many times the same.
#[derive(Clone, Copy)]
pub struct Flow {
    pub pass: Pass,
    pub count: u64,
}

/// Signals that passed. Each is counted in a flow of its own kind. A kind may have several flows: where a signal is
/// counted is found by a look at the last place and at a table of recent places, and if neither fits, a new flow begins.
#[derive(Drop)]
pub struct Flows {
    alloc: Global,
    flows: Vec<Flow>,
    last: usize,
    recent: Vec<usize>,
}

impl Model for Flows {
    ghost use Rattle.std.specs.Prelude.{List};
    ghost use Rattle.settle_checks.specs.declared.summing.flows.Flow.{Flow};

    ghost Value = { List Flow };

    ghost view = { λ f. f.flows.items };
}

impl Flows {
    /// No signal. Takes no memory.
    pub fn new(alloc: Global) -> Self
        ensures { result ≡ [] }
    {
        Flows {
            alloc,
            flows: Vec::new(alloc),
            last: 0,
            recent: Vec::new(alloc),
        }
    }

    /// The flows.
    pub fn as_slice(&self) -> &[Flow]
        ensures { result.now ≡ self.now }
    {
        self.flows.as_slice()
    }

    /// Counts one signal more. False: more than can be counted. For lack of memory it isn't counted.
    #[tactic(auto, using(crate::proofs::FlowLemmas::flows_begun))]
    pub fn add(&mut self, pass: Pass) -> Result<bool, AllocError>
        ensures added { IfOk result (λ added. IsTrue added → (passes : List Pass) → AreFlows passes self.old
            → AreFlows (passes ++ pass ∷ []) self.new) }
        ensures refused { OnErr result (self.new ≡ self.old) }
    {
        let Some(place) = self.place_of(pass) else {
            self.begin(pass)?;
            return Ok(true);
        };
        self.last = place;
        Ok(count_at(&mut self.flows, place, pass))
    }

    /// How many signals passed between the instance and this one. None: more than can be counted.
    pub fn count_with(&self, number: u32) -> Option<u64>
        ensures { IfSome result (λ count. count ≡ counted (is_with number) self.now) }
    {
        count_in(&self.flows, number)
    }

    /// The place of a flow of this kind of signal, where one is found.
    fn place_of(&self, pass: Pass) -> Option<usize>
        ensures { IfSome result (IsPlaceOf self.now pass) }
    {
        if is_at(&self.flows, self.last, pass) {
            return Some(self.last);
        }
        let place = *self.recent.get(slot_of(pass))?;
        if is_at(&self.flows, place, pass) {
            Some(place)
        } else {
            None
        }
    }

    /// Begins a flow with this signal. For lack of memory there is none more.
    fn begin(&mut self, pass: Pass) -> Result<(), AllocError>
        ensures begun { OnOk result (self.new ≡ self.old ++ record { pass = pass; count = 1 } ∷ []) }
        ensures refused { OnErr result (self.new ≡ self.old) }
    {
        let place = self.flows.len();
        if self.recent.is_empty() && place >= MANY {
            self.recent = no_places(self.alloc)?;
        }
        self.flows.push(Flow { pass, count: 1 })?;
        self.last = place;
        if let Some(recent) = self.recent.get_mut(slot_of(pass)) {
            *recent = place;
        }
        Ok(())
    }
}

/// The flows of these signals. None: more than can be counted.
#[tactic(auto, using(crate::proofs::FlowLemmas::flows_next, crate::proofs::FlowLemmas::flows_all))]
pub fn flows_of(alloc: Global, passes: &[Pass]) -> Result<Option<Flows>, AllocError>
    ensures { IfOk result (λ flows. IfSome flows (AreFlows passes.now)) }
{
    let mut flows = Flows::new(alloc);
    for pass in passes {
        let added = flows.add(*pass)?;
        if !added {
            return Ok(None);
        }
    }
    Ok(Some(flows))
}

/// Whether the flow at this place is one of this kind of signal.
fn is_at(flows: &[Flow], place: usize, pass: Pass) -> bool
    ensures { IsTrue result → IsPlaceOf flows.now pass place }
{
    place < flows.len() && is_same(flows[place].pass, pass)
}

/// Whether the two are the same.
fn is_same(one: Pass, other: Pass) -> bool
    ensures { IsTrue result → one ≡ other }
{
    one.name.0 == other.name.0 && one.at == other.at && is_same_pid(one.peer, other.peer)
}

/// Whether the two are the same.
pub fn is_same_pid(one: Pid, other: Pid) -> bool
    ensures { IsTrue result → one ≡ other }
{
    match (one, other) {
        (Pid::Null, Pid::Null) => true,
        (Pid::Env, Pid::Env) => true,
        (Pid::Of(one), Pid::Of(other)) => one == other,
        _ => false,
    }
}

/// Counts one signal more in the flow at this place. False: more than can be counted.
#[tactic(auto, using(crate::proofs::FlowLemmas::flows_more))]
fn count_at(flows: &mut [Flow], place: usize, pass: Pass) -> bool
    requires { IsPlaceOf flows.old pass place }
    ensures counted { IsTrue result → (passes : List Pass) → AreFlows passes flows.old
        → AreFlows (passes ++ pass ∷ []) flows.new }
    ensures len { length flows.new ≡ length flows.old }
{
    let Some(count) = flows[place].count.checked_add(1) else {
        return false;
    };
    flows[place] = Flow { pass, count };
    true
}

/// How many of the signals passed between the instance and this one. None: more than can be counted.
fn count_in(flows: &[Flow], number: u32) -> Option<u64>
    ensures { IfSome result (λ count. count ≡ counted (is_with number) flows.now) }
{
    let mut count: u64 = 0;
    for flow in flows {
        count = count_with(count, *flow, number)?;
    }
    Some(count)
}

/// So many, and those of a flow if it is between the instance and this one. None: more than can be counted.
fn count_with(count: u64, flow: Flow, number: u32) -> Option<u64>
    ensures { IfSome result (λ more. more ≡ count + (if is_with number flow.pass then flow.count else 0)) }
{
    if is_number(flow.pass.peer, number) {
        count.checked_add(flow.count)
    } else {
        Some(count)
    }
}

/// Whether it is the instance of this number.
pub fn is_number(pid: Pid, number: u32) -> bool
    ensures { result ≡ same_pid pid (Of number) }
{
    match pid {
        Pid::Of(other) => other == number,
        _ => false,
    }
}

/// The slot of a kind of signal in the table of recent places.
fn slot_of(pass: Pass) -> usize {
    let peer = match pass.peer {
        Pid::Of(number) => number as usize,
        _ => 0,
    };
    (peer * 31 + pass.name.0 as usize) % SLOTS
}

/// A table of recent places in which none is known.
fn no_places(alloc: Global) -> Result<Vec<usize>, AllocError> {
    let mut places = Vec::with_capacity(alloc, SLOTS)?;
    for _slot in 0..SLOTS {
        places.push(0)?;
    }
    Ok(places)
}
