//! What a record sends.

ghost use Rattle.std.specs.Prelude.{◌≡◌, ◌++◌, ◌∷◌, [], List, IfOk, IsTrue, OnErr, OnOk, option_to_list};
ghost use Rattle.port_model.specs.declared.values.value.Value.{Value};
ghost use Rattle.run_record.specs.Entry.{event_of};
ghost use Rattle.run_record.specs.Event.{Event};
ghost use Rattle.settle_checks.specs.Events.{routed_in};
ghost use Rattle.settle_meaning.specs.Times.{time_by};
ghost use Rattle.settle_checks.specs.Flows.{passes_out, passes_to};
ghost use Rattle.settle_checks.specs.Summary.{HasWith, IsSending};

use crate::summing::flows::{Flows, Pass, is_same_pid};
use crate::targets::Routed;
use port_model::Pid;
use run_record::Entry;
use sdl_system::{Dest, ProcessId, Source, Target};
use std::alloc::{AllocError, Global};

/// The outputs of a record: by which routes they went, each at least once, and how often a signal was sent to whom.
#[derive(Drop)]
pub struct Sending {
    pub routed: Vec<Routed>,
    pub flows: Flows,
}

impl Sending {
    /// Before the first event. Takes no memory.
    #[tactic(auto, using(crate::proofs::SendingLemmas::sending_none))]
    pub fn new(alloc: Global) -> Self
        ensures { (process : ProcessId) → IsSending process [] result }
    {
        Sending {
            routed: Vec::new(alloc),
            flows: Flows::new(alloc),
        }
    }

    /// Notes an event of an instance of this process, at this time. False: more than can be counted.
    pub fn note(&mut self, process: ProcessId, at: u64, entry: Entry) -> Result<bool, AllocError>
        ensures { IfOk result (λ noted. IsTrue noted → (done : List Event) (values : List Value) → at ≡ time_by 0 done
            → IsSending process done self.old → IsSending process (done ++ event_of entry values ∷ []) self.new) }
    {
        let Some(routed) = routed_by(process, entry) else {
            return Ok(true);
        };
        self.route(routed)?;
        let Some(pass) = pass_out(at, routed) else {
            return Ok(true);
        };
        self.flows.add(pass)
    }

    /// Notes where an output went, if the one before it didn't go there.
    fn route(&mut self, routed: Routed) -> Result<(), AllocError>
        ensures routed { OnOk result (HasWith routed self.old.routed.items self.new.routed.items) }
        ensures refused { OnErr result (self.new.routed.items ≡ self.old.routed.items) }
        ensures flows { self.new.flows ≡ self.old.flows }
    {
        let count = self.routed.len();
        if count > 0 && is_same(self.routed[count - 1], routed) {
            return Ok(());
        }
        self.routed.push(routed)?;
        Ok(())
    }
}

/// The signal that an event sends to an instance, at this time.
pub fn sent_by(at: u64, entry: Entry) -> Option<Pass>
    ensures { (values : List Value) → option_to_list result ≡ passes_out at (event_of entry values) }
{
    // Of which process the instance is makes no difference.
    pass_out(at, routed_by(ProcessId(0), entry)?)
}

/// The output of an instance of this process.
fn routed_by(process: ProcessId, entry: Entry) -> Option<Routed>
    ensures { (values : List Value) → result ≡ routed_in process (event_of entry values) }
{
    match entry {
        Entry::Output { signal, to, target } => Some(Routed {
            signal,
            from: Source::Process(process),
            to,
            target,
        }),
        _ => None,
    }
}

/// The signal that an output sends to an instance.
fn pass_out(at: u64, routed: Routed) -> Option<Pass>
    ensures { option_to_list result ≡ passes_to at routed.signal routed.target }
{
    match routed.target {
        Target::Instance(number) => Some(Pass {
            peer: Pid::Of(number),
            name: routed.signal,
            at,
        }),
        _ => None,
    }
}

/// Whether the two are the same.
fn is_same(one: Routed, other: Routed) -> bool
    ensures { IsTrue result → one ≡ other }
{
    one.signal.0 == other.signal.0
        && is_same_source(one.from, other.from)
        && is_same_dest(one.to, other.to)
        && is_same_target(one.target, other.target)
}

fn is_same_source(one: Source, other: Source) -> bool
    ensures { IsTrue result → one ≡ other }
{
    match (one, other) {
        (Source::Env, Source::Env) => true,
        (Source::Process(one), Source::Process(other)) => one.0 == other.0,
        _ => false,
    }
}

fn is_same_dest(one: Dest, other: Dest) -> bool
    ensures { IsTrue result → one ≡ other }
{
    match (one, other) {
        (Dest::Path, Dest::Path) => true,
        (Dest::Process(one), Dest::Process(other)) => one.0 == other.0,
        (Dest::Pid(one), Dest::Pid(other)) => is_same_pid(one, other),
        _ => false,
    }
}

fn is_same_target(one: Target, other: Target) -> bool
    ensures { IsTrue result → one ≡ other }
{
    match (one, other) {
        (Target::Instance(one), Target::Instance(other)) => one == other,
        (Target::Env, Target::Env) => true,
        (Target::Null, Target::Null) => true,
        (Target::Nobody, Target::Nobody) => true,
        _ => false,
    }
}
