//! Tasks (Z.102: task, assignment).

ghost use Rattle.std.specs.Prelude.{◌≡◌, ◌<◌, ◌≤◌, ◌∷◌, [], IfErr, List, OnErr, OnOk, map};
ghost use Rattle.run_record.specs.Event as event;
ghost use Rattle.run_record.specs.Record.{noted, with_room};
ghost use Rattle.run_semantics.specs.Reception.{assigned};
ghost use Rattle.run_semantics.specs.World.{WorldValue};
ghost use Rattle.sdl_interp.specs.Running.{GoesOn, StaysAmid, WorksSame};
ghost use Rattle.sdl_interp.specs.Work.{FailsHere, WorksAmiss, WorksTo, amid};
ghost use Rattle.sdl_system.specs.Body as body;
ghost use Rattle.sdl_system.specs.Body.{Assigning};
ghost use Rattle.sdl_system.specs.Table.{assigning};

use crate::transitions::machine::{Machine, make_room};
use crate::transitions::running::Core;
use crate::transitions::sum::sum_at;
use crate::transitions::variable::sort_of;
use port_model::{Inbox, Value};
use run_record::{Failure, evaluate_at};
use sdl_system::{Assignment, VariableId};
use std::alloc::Global;

impl<'s, P: Inbox + Drop> Core<'s, P> {
    /// Assigns each variable its value, one after the other.
    pub(crate) fn assign_all(
        &mut self,
        alloc: Global,
        assignments: &[Assignment],
    ) -> Result<(), Failure>
        requires { GoesOn P.owning P.since self.old }
        ensures amid { StaysAmid P.owning P.since self.old self.new }
        ensures ok { let all = map assigning assignments.now in
            OnOk result ((w : WorldValue)
            → WorksTo P.owning (amid (body.task all)) self.old w (amid (body.task [])) self.new w) }
        ensures err { let all = map assigning assignments.now in
            IfErr result (λ why. (w : WorldValue)
            → WorksAmiss P.owning (amid (body.task all)) self.old w self.new w why) }
    {
        for assignment in assignments {
            self.assign(alloc, assignment)?;
        }
        Ok(())
    }

    fn assign(&mut self, alloc: Global, assignment: &Assignment) -> Result<(), Failure>
        requires { GoesOn P.owning P.since self.old }
        ensures amid { StaysAmid P.owning P.since self.old self.new }
        ensures ok { OnOk result ((more : List Assigning) (w : WorldValue)
            → WorksTo P.owning (amid (body.task (assigning assignment.now ∷ more))) self.old w
            (amid (body.task more)) self.new w) }
        ensures err { IfErr result (λ why. (more : List Assigning)
            → FailsHere P.owning (amid (body.task (assigning assignment.now ∷ more))) self.old why) }
        ensures same { OnErr result (WorksSame P.owning self.old self.new) }
    {
        let variable = assignment.variable;
        let sort = sort_of(self.process, variable);
        if let Some(value) = sum_at(sort, &assignment.value, &self.machine.store) {
            assign_value(variable, value, &mut self.machine)?;
            return Ok(());
        }
        let value = evaluate_at(alloc, &assignment.value, sort, &self.knowledge())?;
        assign_value(variable, value, &mut self.machine)?;
        Ok(())
    }
}

/// The variable gets its value, which is recorded.
#[inline(always)]
fn assign_value(variable: VariableId, value: Value, machine: &mut Machine) -> Result<(), Failure>
    ensures ok { let now = machine.new.trace in
        OnOk result (machine.new ≡ record machine.old {
          store = assigned variable value machine.old.store;
          trace = with_room (noted machine.old.trace (event.Task variable value)) now.room now.values_room;
        }) }
    ensures room { OnOk result (0 < machine.new.trace.room) }
    ensures err { IfErr result (λ why. why ≡ Failure.Memory) }
    ensures same { let now = machine.new.trace in
        OnErr result
        (machine.new ≡ record machine.old { trace = with_room machine.old.trace now.room now.values_room }) }
    ensures kept { OnErr result (machine.old.trace.room ≤ machine.new.trace.room) }
{
    make_room(machine, 0)?;
    machine.store.variables.set(variable, value);
    machine.trace.task(variable, value);
    Ok(())
}
