//! How a replay ends.

ghost use Rattle.std.specs.Prelude.{◌≡◌, ◌↔◌, [], All, IfOk, IsTrue, List, false};
ghost use Rattle.std.specs.List.{AllZip};
ghost use Rattle.run_order.specs.Interleaving.{IsDoneAndRests};
ghost use Rattle.run_order.specs.Kept.{IsOver, end_of_run};
ghost use Rattle.run_order.specs.Noted.{IsNobody, IsNotOver};
ghost use Rattle.run_order.specs.OneOrder.{instances_of};
ghost use Rattle.run_semantics.specs.Behaves.{AreBehaviours};
ghost use Rattle.sdl_interp.specs.Instance.{IsAtRest};
ghost use Rattle.sdl_system.specs.Behaviour.{Behaviour};
ghost use Rattle.serial_order.specs.Report.{Closes};

use crate::replay::Replay;
use port_model::Ticks;
use run_record::Record;
use std::alloc::{AllocError, Global};

impl<'s> Replay<'s> {
    /// Whether the run is over: each step is told to its end; and, where it is to be whole, all rest, the script is at
    /// its end, and no fuse is due by then.
    pub fn is_over(&self, whole: bool) -> bool
        ensures over { IsTrue result → (ps : List Behaviour) → AreBehaviours self.now.order.system ps
            → IsOver ps whole self.now.order }
        ensures rests { IsTrue result → IsTrue whole → All IsAtRest (instances_of self.now.order) }
        ensures none { result ≡ false → IsNotOver whole self.now.order self.now.noted }
    {
        if !whole {
            return self.is_all_told();
        }
        if !self.is_still() {
            return false;
        }
        if let Some(_) = self.script.first() {
            return false;
        }
        self.is_no_fuse_by(self.end)
    }

    /// Whether all instances rest, and each step is told to its end.
    pub(crate) fn is_still(&self) -> bool
        ensures done { IsTrue result → (ps : List Behaviour) → AreBehaviours self.now.order.system ps
            → All (IsDoneAndRests ps) self.now.order.members }
        ensures rest { IsTrue result → All IsAtRest (instances_of self.now.order) }
        ensures noted { IsTrue result ↔ IsNobody self.now.noted }
    {
        match self.agenda.ready.next_after(0) {
            Some(_) => false,
            None => true,
        }
    }

    fn is_all_told(&self) -> bool
        ensures { IsTrue result ↔ All (λ m. m.pending ≡ []) self.now.order.members }
    {
        for member in &self.members {
            if !member.pending.is_empty() {
                return false;
            }
        }
        true
    }

    /// The time at which the run ends: a whole one at that of the script's last line, a cut one at the clock's.
    pub fn end_of_run(&self, whole: bool) -> Ticks
        ensures { result ≡ end_of_run whole self.now.order }
    {
        if whole { self.end } else { self.agenda.clock }
    }

    /// The records by ascending number, closed.
    pub fn close(self, alloc: Global, whole: bool) -> Result<Vec<Record>, AllocError>
        requires { IsTrue whole → All IsAtRest (instances_of self.order) }
        ensures { IfOk result (λ records. (ps : List Behaviour) → AreBehaviours self.entry.order.system ps
            → AllZip (Closes ps whole) (instances_of self.entry.order) records.items) }
    {
        let mut records = Vec::new(alloc);
        for member in self.members {
            records.push(member.instance.close(whole).trace)?;
        }
        Ok(records)
    }
}
