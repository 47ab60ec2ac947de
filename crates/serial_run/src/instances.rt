//! The instances of a serial run.

ghost use Rattle.std.specs.Prelude.{◌≡◌, ◌+◌, ◌++◌, [], All, IfOk, IsTrue, OnOk, Some, false, slice_get};
ghost use Rattle.std.specs.List.{AllZip};
ghost use Rattle.serial_order.specs.RunState.{first_instances, first_of};
ghost use Rattle.serial_run.specs.Serial.{IsSerial};
ghost use Rattle.sdl_interp.specs.Instance.{IsAtRest, IsClosed};

use crate::world::Living;
use port_model::{Alone, Pid, Values};
use run_record::Record;
use sdl_interp::Instance;
use sdl_system::{Process, ProcessId, System};
use serial_sweeps::Agenda;
use std::alloc::{AllocError, Global};

/// The instances of a run, with ports of their own, and who of them lives.
#[derive(Drop)]
pub struct Instances<'s> {
    /// The system that runs.
    pub system: &'s System,
    /// By ascending number, the first one with the number 1.
    pub instances: Vec<Instance<'s, Alone>>,
    /// Who of them lives, and how many numbers are given.
    pub living: Living,
}

impl<'s> Instances<'s> {
    /// The instances with which the system begins, before their start at time 0. Nobody was there before.
    pub fn begin(alloc: Global, agenda: &mut Agenda, system: &'s System) -> Result<Self, AllocError>
        requires { agenda.old.ready ≡ [] }
        ensures serial { IfOk result (IsSerial agenda.new.ready) }
        ensures clock { agenda.new.clock ≡ agenda.old.clock }
        ensures fuses { agenda.new.fuses ≡ agenda.old.fuses }
        ensures system { IfOk result (λ a. a.system.now ≡ system.now) }
        ensures instances { IfOk result (λ a. a.instances.items ≡ first_instances system.now 1 0 system.now.processes) }
    {
        let mut run = Instances {
            system,
            instances: Vec::new(alloc),
            living: Living::new(alloc, system.processes().len())?,
        };
        for (number, process) in system.processes().iter().enumerate() {
            let Ok(number) = u32::try_from(number) else {
                return Err(AllocError);
            };
            run.begin_all(alloc, agenda, ProcessId(number), process)?;
        }
        Ok(run)
    }

    /// The instances of one process.
    fn begin_all(
        &mut self,
        alloc: Global,
        agenda: &mut Agenda,
        id: ProcessId,
        process: &'s Process,
    ) -> Result<(), AllocError>
        requires serial { IsSerial agenda.old.ready self.old }
        requires process { slice_get self.old.system.now.processes id.0 ≡ Some process.now }
        ensures kept { OnOk result (IsSerial agenda.new.ready self.new) }
        ensures system { self.new.system ≡ self.old.system }
        ensures clock { agenda.new.clock ≡ agenda.old.clock }
        ensures fuses { agenda.new.fuses ≡ agenda.old.fuses }
        ensures instances { OnOk result (self.new.instances.items ≡ self.old.instances.items
            ++ first_of self.old.system.now (self.old.living.given + 1) id process.now process.now.initial) }
    {
        for _ in 0..process.initial {
            let none = Values::none(alloc);
            self.enter(alloc, agenda, id, process, Pid::Null, &none)?;
        }
        Ok(())
    }

    /// The records by ascending number.
    pub fn close(self, alloc: Global, whole: bool) -> Result<Vec<Record>, AllocError>
        requires rest { IsTrue whole → All IsAtRest self.instances.items }
        ensures { IfOk result (λ records. AllZip (IsClosed false whole) self.entry.instances.items records.items) }
    {
        let mut records = Vec::new(alloc);
        for instance in self.instances {
            records.push(instance.close(whole).trace)?;
        }
        Ok(records)
    }
}
