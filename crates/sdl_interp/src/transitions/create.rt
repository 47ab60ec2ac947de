//! Creates (Z.101: create).

ghost use Rattle.std.specs.Prelude.{◌≡◌, IfErr, OnErr, OnOk, map};
ghost use Rattle.run_semantics.specs.Leads.{offspring_of};
ghost use Rattle.sdl_interp.specs.Running.{GoesOn, StaysAmid, WorksSame};
ghost use Rattle.sdl_interp.specs.Work.{FailsHere, WorksTo, amid, behind};
ghost use Rattle.sdl_system.specs.Body as body;
ghost use Rattle.sdl_system.specs.Term.{term_of};

use crate::transitions::machine::make_room;
use crate::transitions::running::Core;
use crate::transitions::variable::parameters_of;
use port_model::{Inbox, Pid};
use run_record::{Failure, evaluate_all};
use run_semantics::World;
use sdl_system::Creation;
use std::alloc::Global;

impl<'s, P: Inbox + Drop> Core<'s, P> {
    /// Makes an instance with the values of its parameters, or none where no more may live; the values are evaluated
    /// all the same.
    #[inline(never)]
    pub(crate) fn create<W: World>(
        &mut self,
        alloc: Global,
        creation: &Creation,
        world: &mut W,
    ) -> Result<(), Failure>
        requires { GoesOn P.owning P.since self.old }
        ensures amid { StaysAmid P.owning P.since self.old self.new }
        ensures ok { let action = body.create creation.now.process (map term_of creation.now.values.items) in
            OnOk result
            (WorksTo P.owning (amid action) self.old (W.value world.old) behind self.new (W.value world.new)) }
        ensures err { let action = body.create creation.now.process (map term_of creation.now.values.items) in
            IfErr result (FailsHere P.owning (amid action) self.old) }
        ensures same { OnErr result (WorksSame P.owning self.old self.new) }
        ensures quiet { OnErr result (W.value world.new ≡ W.value world.old) }
    {
        let process = creation.process;
        let sorts = parameters_of(alloc, self.system, process)?;
        let values = evaluate_all(alloc, &creation.values, &sorts, &self.knowledge())?;
        make_room(&mut self.machine, 0)?;
        let Ok(number) = world.create(process, self.machine.trace.pid(), values) else {
            return Err(Failure::Memory);
        };
        self.machine.store.offspring = offspring_of(number);
        self.machine.trace.create(process, number);
        Ok(())
    }
}

fn offspring_of(number: Option<u32>) -> Pid
    ensures { result ≡ offspring_of number }
{
    match number {
        None => Pid::Null,
        Some(number) => Pid::Of(number),
    }
}
