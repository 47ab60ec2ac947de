//! How many signals went to each instance.

ghost use Rattle.std.specs.Prelude.{◌≡◌, IfOk, IfSome, IsTrue};
ghost use Rattle.settle_checks.specs.Totals.{AreTotals, IsOneMore, total};

use crate::summing::flows::Flow;
use port_model::Pid;
use std::alloc::{AllocError, Global};
use std::collections::BTreeMap;
use std::marker::Model;

/// How many of some signals went to each instance, by its number.
#[derive(Drop)]
pub struct Totals {
    by_number: BTreeMap<u32, u64>,
}

impl Model for Totals {
    ghost use Rattle.std.specs.Prelude.{List, ℕ};

    ghost Value = { List (ℕ × ℕ) };

    ghost view = { λ t. t.by_number.entries };
}

impl Totals {
    /// The totals of these flows. None: more than can be counted.
    #[tactic(auto, using(crate::proofs::TotalLemmas::totals_none, crate::proofs::TotalLemmas::totals_more, crate::proofs::TotalLemmas::totals_all))]
    pub fn of(alloc: Global, flows: &[Flow]) -> Result<Option<Self>, AllocError>
        ensures { IfOk result (λ totals. IfSome totals (AreTotals flows.now)) }
    {
        let mut totals = Totals {
            by_number: BTreeMap::new(alloc),
        };
        for flow in flows {
            let added = totals.add(*flow)?;
            if !added {
                return Ok(None);
            }
        }
        Ok(Some(totals))
    }

    /// How many signals went to this instance.
    pub fn to(&self, number: u32) -> u64
        ensures { result ≡ total self.now number }
    {
        match self.by_number.get(&number) {
            None => 0,
            Some(count) => *count,
        }
    }

    /// Adds a flow. False: more than can be counted.
    #[tactic(auto, using(crate::proofs::TotalLemmas::total_with, crate::proofs::TotalLemmas::total_same_null, crate::proofs::TotalLemmas::total_same_env))]
    fn add(&mut self, flow: Flow) -> Result<bool, AllocError>
        ensures { IfOk result (λ added. IsTrue added → IsOneMore flow self.old self.new) }
    {
        let Pid::Of(number) = flow.pass.peer else {
            return Ok(true);
        };
        let Some(count) = self.to(number).checked_add(flow.count) else {
            return Ok(false);
        };
        if self.by_number.insert(number, count).is_err() {
            return Err(AllocError);
        }
        Ok(true)
    }
}
