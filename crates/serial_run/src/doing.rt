//! What is done to instances: acts, expiries, lines of the script, and instances that are made.

ghost use Rattle.std.specs.Prelude.{◌≡◌, ◌⊎◌, ◌+◌, ◌++◌, ◌<◌, ◌≤◌, ◌∷◌, [], ℕ, IfNone, IfSome, OnOk, Some, map};
ghost use Rattle.std.specs.Prelude.{slice_get, vec_len};
ghost use Rattle.serial_run.specs.StepWorld.{AreNumbered, effect_of};
ghost use Rattle.serial_order.specs.Execution.{IsNoFuseBefore};
ghost use Rattle.run_semantics.specs.Effect.{Create};
ghost use Rattle.serial_order.specs.RunState.{RunState, after_effect, after_effects, armed, expired, heard_effects, instance_of, sent_to};
ghost use Rattle.serial_order.specs.Told.{given_after_one};
ghost use Rattle.serial_run.specs.Serial.{IsSerial, state_of};
ghost use Rattle.serial_run.specs.Thinned.{IsThinned};
ghost use Rattle.serial_sweeps.specs.Sweeps.{Moment, at_agenda};

use crate::instances::Instances;
use crate::world::{Effect, Effects};
use port_model::{Alone, Fuse, Item, Pid, Values};
use run_record::Identity;
use sdl_interp::Instance;
use sdl_script::ScriptLine;
use sdl_system::{Process, ProcessId, Source, Target};
use serial_sweeps::Agenda;
use std::alloc::{AllocError, Global};

impl<'s> Instances<'s> {
    /// Does what a step does outside, in its order.
    #[inline(always)]
    pub fn perform_all(
        &mut self,
        alloc: Global,
        agenda: &mut Agenda,
        effects: &mut Effects,
    ) -> Result<(), AllocError>
        requires { IsSerial agenda.old.ready self.old }
        ensures kept { OnOk result (IsSerial agenda.new.ready self.new) }
        ensures system { self.new.system ≡ self.old.system }
        ensures clock { agenda.new.clock ≡ agenda.old.clock }
        ensures state { (m : Moment) (g : RunState) → IsThinned g (state_of (at_agenda m agenda.old) self.old)
            → OnOk result (AreNumbered self.old.living.given (map effect_of effects.old.items)
            → IsThinned (after_effects g (map effect_of effects.old.items)) (state_of (at_agenda m agenda.new) self.new)) }
        ensures fuses { (until : ℕ) → until ≤ agenda.old.clock + 1 → IsNoFuseBefore until agenda.old.fuses
            → OnOk result (IsNoFuseBefore until agenda.new.fuses) }
    {
        while let Some(effect) = effects.pop_front() {
            self.perform(alloc, agenda, effect)?;
        }
        Ok(())
    }

    /// An act. An instance is made only of a process of the system.
    #[inline(always)]
    fn perform(
        &mut self,
        alloc: Global,
        agenda: &mut Agenda,
        effect: Effect,
    ) -> Result<(), AllocError>
        requires { IsSerial agenda.old.ready self.old }
        ensures kept { OnOk result (IsSerial agenda.new.ready self.new) }
        ensures system { self.new.system ≡ self.old.system }
        ensures clock { agenda.new.clock ≡ agenda.old.clock }
        ensures given { OnOk result (self.new.living.given ≡ given_after_one self.old.living.given (effect_of effect)) }
        ensures state { (m : Moment) (g : RunState) → IsThinned g (state_of (at_agenda m agenda.old) self.old)
            → OnOk result (AreNumbered self.old.living.given (effect_of effect ∷ [])
            → IsThinned (after_effect g (effect_of effect)) (state_of (at_agenda m agenda.new) self.new)) }
        ensures fuses { (until : ℕ) → until ≤ agenda.old.clock + 1 → IsNoFuseBefore until agenda.old.fuses
            → OnOk result (IsNoFuseBefore until agenda.new.fuses) }
    {
        match effect {
            Effect::Send { target, item } => self.send(agenda, target, item),
            Effect::Arm(fuse) => self.arm(agenda, fuse),
            Effect::Create {
                process,
                number: _,
                parent,
                values,
            } => self.create(alloc, agenda, process, parent, &values),
        }
    }

    /// An instance that another one makes. There is none if there is no such process.
    fn create(
        &mut self,
        alloc: Global,
        agenda: &mut Agenda,
        id: ProcessId,
        parent: u32,
        values: &Values,
    ) -> Result<(), AllocError>
        requires { IsSerial agenda.old.ready self.old }
        ensures kept { OnOk result (IsSerial agenda.new.ready self.new) }
        ensures system { self.new.system ≡ self.old.system }
        ensures clock { agenda.new.clock ≡ agenda.old.clock }
        ensures given { OnOk result (self.new.living.given ≡ self.old.living.given + 1) }
        ensures state { (m : Moment) → OnOk result (state_of (at_agenda m agenda.new) self.new
            ≡ after_effect (state_of (at_agenda m agenda.old) self.old)
            (Create id (self.old.living.given + 1) parent values.now)) }
        ensures fuses { agenda.new.fuses ≡ agenda.old.fuses }
    {
        let Some(process) = self.system.process(id) else {
            return Err(AllocError);
        };
        self.enter(alloc, agenda, id, process, Pid::Of(parent), values)
    }

    /// An instance of the process more, with the next number.
    pub fn enter(
        &mut self,
        alloc: Global,
        agenda: &mut Agenda,
        id: ProcessId,
        process: &'s Process,
        parent: Pid,
        values: &Values,
    ) -> Result<(), AllocError>
        requires serial { IsSerial agenda.old.ready self.old }
        requires process { slice_get self.old.system.now.processes id.0 ≡ Some process.now }
        ensures kept { OnOk result (IsSerial agenda.new.ready self.new) }
        ensures system { self.new.system ≡ self.old.system }
        ensures clock { agenda.new.clock ≡ agenda.old.clock }
        ensures given { OnOk result (self.new.living.given ≡ self.old.living.given + 1) }
        ensures instances { OnOk result (self.new.instances.items ≡ self.old.instances.items
            ++ instance_of self.old.system.now process.now
            (record { process = id; pid = self.old.living.given + 1; parent = parent }) values.now ∷ []) }
        ensures fuses { agenda.new.fuses ≡ agenda.old.fuses }
    {
        let Some(pid) = self.living.given().checked_add(1) else {
            return Err(AllocError);
        };
        let who = Identity {
            process: id,
            pid,
            parent,
        };
        let inbox = Alone::new(alloc, pid);
        let Ok(instance) = Instance::new(alloc, self.system, process, who, values, inbox) else {
            return Err(AllocError);
        };
        self.instances.push(instance)?;
        agenda.ready.wake(pid)?;
        self.living.add(id);
        Ok(())
    }

    /// Puts a signal into the port of its target. What goes to the environment, to null, to nobody or to a number that
    /// nobody has is gone.
    #[inline(always)]
    fn send(&mut self, agenda: &mut Agenda, target: Target, item: Item) -> Result<(), AllocError>
        requires { IsSerial agenda.old.ready self.old }
        ensures kept { OnOk result (IsSerial agenda.new.ready self.new) }
        ensures system { self.new.system ≡ self.old.system }
        ensures clock { agenda.new.clock ≡ agenda.old.clock }
        ensures living { self.new.living ≡ self.old.living }
        ensures state { (m : Moment) → OnOk result (state_of (at_agenda m agenda.new) self.new
            ≡ sent_to (state_of (at_agenda m agenda.old) self.old) target item) }
        ensures fuses { agenda.new.fuses ≡ agenda.old.fuses }
    {
        let Target::Instance(number) = target else {
            return Ok(());
        };
        let Some(place) = self.place_of(number) else {
            return Ok(());
        };
        if self.instances[place].put(item).is_err() {
            return Err(AllocError);
        }
        agenda.ready.wake(number)?;
        Ok(())
    }

    /// A fuse whose time has come expires at once, another waits. Fuses by which no timer runs any more go once there
    /// may be many of them.
    fn arm(&mut self, agenda: &mut Agenda, fuse: Fuse) -> Result<(), AllocError>
        requires { IsSerial agenda.old.ready self.old }
        ensures kept { OnOk result (IsSerial agenda.new.ready self.new) }
        ensures system { self.new.system ≡ self.old.system }
        ensures clock { agenda.new.clock ≡ agenda.old.clock }
        ensures living { self.new.living ≡ self.old.living }
        ensures state { (m : Moment) (g : RunState) → IsThinned g (state_of (at_agenda m agenda.old) self.old)
            → OnOk result (IsThinned (armed g fuse) (state_of (at_agenda m agenda.new) self.new)) }
        ensures fuses { (until : ℕ) → until ≤ agenda.old.clock + 1 → IsNoFuseBefore until agenda.old.fuses
            → OnOk result (IsNoFuseBefore until agenda.new.fuses) }
    {
        if fuse.due() <= agenda.clock {
            return self.fire(agenda, fuse);
        }
        if let Err(_) = agenda.fuses.arm(fuse) {
            return Err(AllocError);
        }
        agenda.fuses.thin(&*self);
        Ok(())
    }

    /// A fuse expires in the port of its instance.
    pub fn fire(&mut self, agenda: &mut Agenda, fuse: Fuse) -> Result<(), AllocError>
        requires { IsSerial agenda.old.ready self.old }
        ensures kept { OnOk result (IsSerial agenda.new.ready self.new) }
        ensures system { self.new.system ≡ self.old.system }
        ensures clock { agenda.new.clock ≡ agenda.old.clock }
        ensures living { self.new.living ≡ self.old.living }
        ensures state { (m : Moment) → OnOk result (state_of (at_agenda m agenda.new) self.new
            ≡ expired (state_of (at_agenda m agenda.old) self.old) fuse) }
        ensures fuses { agenda.new.fuses ≡ agenda.old.fuses }
    {
        let number = fuse.pid();
        let Some(place) = self.place_of(number) else {
            return Ok(());
        };
        if self.instances[place].expire(fuse, agenda.clock).is_err() {
            return Err(AllocError);
        }
        agenda.ready.wake(number)?;
        Ok(())
    }

    /// Puts what the environment sends in a line into the port of its target.
    pub fn put_line(&mut self, agenda: &mut Agenda, line: &ScriptLine) -> Result<(), AllocError>
        requires { IsSerial agenda.old.ready self.old }
        ensures kept { OnOk result (IsSerial agenda.new.ready self.new) }
        ensures system { self.new.system ≡ self.old.system }
        ensures clock { agenda.new.clock ≡ agenda.old.clock }
        ensures state { (m : Moment) → OnOk result (state_of (at_agenda m agenda.new) self.new
            ≡ after_effects (state_of (at_agenda m agenda.old) self.old)
            (heard_effects (state_of (at_agenda m agenda.old) self.old) line.now.signal)) }
        ensures fuses { agenda.new.fuses ≡ agenda.old.fuses }
    {
        let Some(signal) = &line.signal else {
            return Ok(());
        };
        let item = &signal.item;
        let living = self.living.least();
        let target = self.system.route(item.name, Source::Env, signal.to, living);
        let heard = Item {
            name: item.name,
            values: item.values.copied()?,
            sender: item.sender,
        };
        self.send(agenda, target, heard)?;
        Ok(())
    }

    /// The place of the instance of a number. No instance has the number 0.
    pub fn place_of(&self, number: u32) -> Option<usize>
        ensures some { IfSome result (λ place. (place + 1 ≡ number) × (place < vec_len self.now.instances)) }
        ensures none { IfNone result ((number ≡ 0) ⊎ (vec_len self.now.instances < number)) }
    {
        let place = number.checked_sub(1)? as usize;
        if place < self.instances.len() {
            Some(place)
        } else {
            None
        }
    }
}
