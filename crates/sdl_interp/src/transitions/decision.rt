//! Decisions (Z.102: decision).

ghost use Rattle.std.specs.Prelude.{◌≡◌, ◌⊎◌, IfErr, IfOk, OnErr, OnOk};
ghost use Rattle.run_record.specs.Knowledge.{environment_of};
ghost use Rattle.run_record.specs.Memory.{FailsAs, wants_memory};
ghost use Rattle.run_record.specs.Value.{value_of};
ghost use Rattle.run_semantics.specs.Leads.{Counts};
ghost use Rattle.sdl_interp.specs.Running.{GoesOn};
ghost use Rattle.sdl_interp.specs.Walk.{CantChooseIn, Chooses, ChoosesWay, HasNoWay};
ghost use Rattle.sdl_system.specs.Term.{term_of};

use crate::transitions::count::with_one_more;
use crate::transitions::running::Core;
use port_model::Inbox;
use run_record::{Failure, Knowledge, evaluate};
use sdl_system::{Decision, Way};
use std::alloc::Global;

impl<'s, P: Inbox + Drop> Core<'s, P> {
    /// Counts a decision, and the way that the value of its question takes. Errors: `TooLong` after 10,000 statements,
    /// those of the question, and `NoAnswer` where its value meets no answer and there is no `else`. What has no way
    /// isn't counted.
    pub(crate) fn choose(&mut self, alloc: Global, decision: &Decision) -> Result<Way, Failure>
        requires { GoesOn P.owning P.since self.old }
        ensures rest { self.new ≡ record self.old {
          machine = record self.old.machine { store = self.new.machine.store };
        } }
        ensures counts { OnOk result (Counts self.old.machine.store self.new.machine.store) }
        ensures ok { IfOk result (Chooses P.owning decision.now self.old) }
        ensures err { IfErr result (CantChooseIn P.owning decision.now self.old) }
        ensures same { OnErr result (self.new ≡ self.old) }
    {
        let done = with_one_more(&self.machine)?;
        let way = decide(alloc, decision, &self.knowledge())?;
        self.machine.store.done = done;
        Ok(way)
    }
}

/// The way that the value of the question takes.
fn decide<P: Inbox>(
    alloc: Global,
    decision: &Decision,
    knowledge: &Knowledge<'_, P>,
) -> Result<Way, Failure>
    ensures ok { IfOk result (ChoosesWay (environment_of knowledge.now) decision.now) }
    ensures err { let here = environment_of knowledge.now in
        let question = term_of decision.now.question in
        IfErr result (λ why.
        FailsAs (wants_memory question) (value_of here question) why ⊎ HasNoWay here decision.now why) }
{
    let value = evaluate(alloc, &decision.question, knowledge)?;
    decision.way(value).ok_or(Failure::NoAnswer)
}
