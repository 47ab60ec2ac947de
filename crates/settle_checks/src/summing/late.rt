//! What is left of what a sender sends to an instance, if the first signals are missing.

ghost use Rattle.std.specs.Prelude.{◌≡◌, ◌++◌, ◌∷◌, [], ℕ, IfOk, IfSome, IsTrue, List, OnOk};
ghost use Rattle.port_model.specs.declared.values.value.Value.{Value};
ghost use Rattle.run_record.specs.Entry.{event_of};
ghost use Rattle.run_record.specs.Event.{Event};
ghost use Rattle.settle_checks.specs.Flows.{sent_passes};
ghost use Rattle.settle_checks.specs.Late.{IsLate, IsRestOf, IsSightOf};
ghost use Rattle.settle_checks.specs.declared.summing.flows.Pass.{Pass};

use crate::summing::course::time_of;
use crate::summing::flows::{Flows, Pass, is_number};
use crate::summing::sending::sent_by;
use run_record::{Entry, Record};
use std::alloc::{AllocError, Global};

/// What is left of a look at signals: how many are still missing, and the flows of all others.
#[derive(Drop)]
struct Rest {
    missing: u64,
    flows: Flows,
}

/// The flows of those of these signals that go to the instance of this number, without the first `missing` ones. None: one
/// of these was sent after the time `born`, or there is more than can be counted.
#[tactic(auto, using(crate::proofs::LateLemmas::rest_none, crate::proofs::LateLemmas::rest_next, crate::proofs::LateLemmas::rest_all))]
pub fn late_flows(
    alloc: Global,
    passes: &[Pass],
    number: u32,
    missing: u64,
    born: u64,
) -> Result<Option<Flows>, AllocError>
    ensures { IfOk result (λ flows. IfSome flows (IsLate passes.now number missing born)) }
{
    let mut rest = Rest {
        missing,
        flows: Flows::new(alloc),
    };
    for pass in passes {
        let is_early = rest.note(number, born, *pass)?;
        if !is_early {
            return Ok(None);
        }
    }
    let Rest { flows, .. } = rest;
    Ok(Some(flows))
}

impl Rest {
    /// Notes a signal. False: it is missing and was sent after the time `born`, or there is more than can be counted.
    #[tactic(auto, using(crate::proofs::LateLemmas::rest_other, crate::proofs::LateLemmas::rest_more))]
    fn note(&mut self, number: u32, born: u64, pass: Pass) -> Result<bool, AllocError>
        ensures { IfOk result (λ early. IsTrue early → (done : List Pass) (missing : ℕ)
            → IsRestOf done number missing born self.old.missing self.old.flows
            → IsRestOf (done ++ pass ∷ []) number missing born self.new.missing self.new.flows) }
    {
        if !is_number(pass.peer, number) {
            return Ok(true);
        }
        if self.missing == 0 {
            return self.flows.add(pass);
        }
        self.missing -= 1;
        Ok(pass.at <= born)
    }
}

/// What was seen of the events of a record: the time, and all signals that they send to instances.
#[derive(Drop)]
struct Sight {
    time: u64,
    passes: Vec<Pass>,
}

/// All signals that the record sends to instances, each with the time of its transition.
pub fn passes_of(alloc: Global, trace: &Record) -> Result<Vec<Pass>, AllocError>
    ensures { IfOk result (λ passes. passes.items ≡ sent_passes 0 trace.now.events) }
{
    let mut sight = Sight {
        time: 0,
        passes: Vec::new(alloc),
    };
    for told in trace.reader() {
        sight.note(told.entry)?;
    }
    let Sight { passes, .. } = sight;
    Ok(passes)
}

impl Sight {
    /// Notes an event.
    fn note(&mut self, entry: Entry) -> Result<(), AllocError>
        ensures { OnOk result ((done : List Event) (values : List Value)
            → IsSightOf done self.old.time self.old.passes.items
            → IsSightOf (done ++ event_of entry values ∷ []) self.new.time self.new.passes.items) }
    {
        let time = time_of(self.time, entry);
        if let Some(pass) = sent_by(self.time, entry) {
            self.passes.push(pass)?;
        }
        self.time = time;
        Ok(())
    }
}
