//! What steps do outside.

ghost use Rattle.std.specs.Prelude.{◌≡◌, ◌↔◌, ◌+◌, ◌<◌, ◌∷◌, [], IfOk, IsTrue, None, OnOk, Some, false, length};
ghost use Rattle.run_order.specs.Interleaving.{MayTell, Within};
ghost use Rattle.run_order.specs.Kept.{IsFixed, IsNextNumber, IsNoLook, IsNoTell, LeadsIf, MayLook, MayLookAt, MayTellAt};
ghost use Rattle.run_order.specs.OrderState.{after_pending, armed, created, expired, living_of, sent_to};
ghost use Rattle.run_semantics.specs.World.{number_for};

use crate::member::Member;
use crate::pending::Pending;
use crate::replay::Replay;
use port_model::{Alone, Fuse, Item, Pid, Values};
use run_record::Identity;
use sdl_interp::Instance;
use sdl_system::{ProcessId, Source, Target};
use std::alloc::{AllocError, Global};

impl<'s> Replay<'s> {
    /// Looks up where the next output of an instance goes, by those who live now. False: the instance has no output to
    /// do next, or it goes elsewhere than its record says. Nothing has changed then.
    pub fn look_up(&mut self, number: u32) -> bool
        ensures leads { LeadsIf result self.old.order [] Within self.new.order }
        ensures none { result ≡ false → IsNoLook self.old.order number }
        ensures fixed { IsFixed self.old.order self.new.order }
    {
        let Some(place) = self.place_of(number) else {
            return false;
        };
        if !self.may_look(place) {
            return false;
        }
        self.members[place].looked = true;
        true
    }

    /// Whether the next event of an instance is an output that goes, by those who live now, where its record says.
    fn may_look(&self, place: usize) -> bool
        requires { place < length self.now.order.members }
        ensures { IsTrue result ↔ MayLookAt self.now.order place }
    {
        let member = &self.members[place];
        let Some(what) = member.pending.first() else {
            return false;
        };
        self.goes_so(member.instance.who().process, what)
    }

    /// Whether an event of an instance of this process is an output that goes, by those who live now, where it says.
    fn goes_so(&self, process: ProcessId, what: &Pending) -> bool
        ensures { IsTrue result ↔ MayLook self.now.order process what.now }
    {
        match what {
            Pending::Send { to, target, item } => {
                let living = self.roster.least();
                let goes = self
                    .system
                    .route(item.name, Source::Process(process), *to, living);
                is_same(goes, *target)
            }
            _ => false,
        }
    }

    /// Tells the next event of an instance, and does what that does outside. False: nothing is left to be told of it,
    /// or an output wasn't looked up, or a create gives another number now, or another answer. Nothing has changed
    /// then. For lack of memory nothing is known of the run any more.
    pub fn tell(&mut self, alloc: Global, number: u32) -> Result<bool, AllocError>
        ensures leads { IfOk result (λ told. LeadsIf told self.old.order (number ∷ []) Within self.new.order) }
        ensures none { IfOk result (λ told. told ≡ false → IsNoTell self.old.order number) }
        ensures fixed { IsFixed self.old.order self.new.order }
    {
        let Some(place) = self.place_of(number) else {
            return Ok(false);
        };
        if !self.may_tell(place) {
            return Ok(false);
        }
        let member = &mut self.members[place];
        let Some(what) = member.pending.pop() else {
            return Ok(false);
        };
        member.looked = false;
        let who = member.instance.who();
        self.perform(alloc, who, what)?;
        Ok(true)
    }

    /// Whether the next event of an instance may be told now.
    fn may_tell(&self, place: usize) -> bool
        requires { place < length self.now.order.members }
        ensures { IsTrue result ↔ MayTellAt self.now.order place }
    {
        let member = &self.members[place];
        let Some(what) = member.pending.first() else {
            return false;
        };
        self.is_allowed(member.looked, what)
    }

    /// Whether an event may be told now, of an instance that was looked up, or not.
    fn is_allowed(&self, looked: bool, what: &Pending) -> bool
        ensures { IsTrue result ↔ MayTell self.now.order looked what.now }
    {
        match what {
            Pending::Send { .. } => looked,
            Pending::Create {
                process,
                number,
                ..
            } => self.is_next(*process, *number),
            Pending::Full(process) => self.makes_none(*process),
            _ => true,
        }
    }

    /// Whether a create of an instance of the process gives this number now.
    fn is_next(&self, process: ProcessId, number: u32) -> bool
        ensures { IsTrue result ↔ (number_for self.now.order.system (living_of self.now.order) process ≡ Some number) }
    {
        match self.number_for(process) {
            Some(next) => next == number,
            None => false,
        }
    }

    /// Whether a create of an instance of the process makes none now.
    fn makes_none(&self, process: ProcessId) -> bool
        ensures { IsTrue result ↔ (number_for self.now.order.system (living_of self.now.order) process ≡ None) }
    {
        match self.number_for(process) {
            Some(_) => false,
            None => true,
        }
    }

    /// Does what an instance has to do outside.
    fn perform(&mut self, alloc: Global, who: Identity, what: Pending) -> Result<(), AllocError>
        requires { IsNextNumber (length self.old.order.members) what }
        ensures leads { OnOk result (self.new.order ≡ after_pending self.old.order who what) }
        ensures fixed { IsFixed self.old.order self.new.order }
    {
        match what {
            Pending::Send { target, item, .. } => self.send(target, item),
            Pending::Arm(fuse) => self.arm(fuse),
            Pending::Create {
                process,
                number,
                parent,
                values,
            } => self.create(alloc, process, number, parent, &values),
            Pending::End => {
                self.roster.leave(who.process, who.pid);
                Ok(())
            }
            _ => Ok(()),
        }
    }

    /// Puts a signal into the port of its target. What goes to the environment, to null, to nobody or to a number that
    /// nobody has is gone.
    pub(crate) fn send(&mut self, target: Target, item: Item) -> Result<(), AllocError>
        ensures leads { OnOk result (self.new.order ≡ sent_to self.old.order target item) }
        ensures fixed { IsFixed self.old.order self.new.order }
    {
        let Target::Instance(number) = target else {
            return Ok(());
        };
        self.put(number, item)
    }

    /// Puts a signal into the port of the instance with this number, if there is one.
    fn put(&mut self, number: u32, item: Item) -> Result<(), AllocError>
        ensures leads { OnOk result (self.new.order ≡ sent_to self.old.order (Target.Instance number) item) }
        ensures fixed { IsFixed self.old.order self.new.order }
    {
        let Some(place) = self.place_of(number) else {
            return Ok(());
        };
        self.agenda.ready.wake(number)?;
        if self.members[place].instance.put(item).is_err() {
            return Err(AllocError);
        }
        Ok(())
    }

    /// A fuse expires in the port of its instance.
    pub(crate) fn fire(&mut self, fuse: Fuse) -> Result<(), AllocError>
        ensures leads { OnOk result (self.new.order ≡ expired self.old.order fuse) }
        ensures fixed { IsFixed self.old.order self.new.order }
    {
        let number = fuse.pid();
        let Some(place) = self.place_of(number) else {
            return Ok(());
        };
        self.agenda.ready.wake(number)?;
        let at = self.agenda.clock;
        if self.members[place].instance.expire(fuse, at).is_err() {
            return Err(AllocError);
        }
        Ok(())
    }

    /// A fuse whose time has come expires at once, another waits.
    fn arm(&mut self, fuse: Fuse) -> Result<(), AllocError>
        ensures leads { OnOk result (self.new.order ≡ armed self.old.order fuse) }
        ensures fixed { IsFixed self.old.order self.new.order }
    {
        if fuse.due() <= self.agenda.clock {
            return self.fire(fuse);
        }
        if self.agenda.fuses.arm(fuse).is_err() {
            return Err(AllocError);
        }
        Ok(())
    }

    /// Makes an instance of a process, with the next number. There is none if there is no such process.
    fn create(
        &mut self,
        alloc: Global,
        id: ProcessId,
        number: u32,
        parent: u32,
        values: &Values,
    ) -> Result<(), AllocError>
        requires { number ≡ length self.old.order.members + 1 }
        ensures leads { OnOk result (self.new.order ≡ created self.old.order id number parent values.now) }
        ensures fixed { IsFixed self.old.order self.new.order }
    {
        let Some(process) = self.system.process(id) else {
            return Ok(());
        };
        let who = Identity {
            process: id,
            pid: number,
            parent: Pid::Of(parent),
        };
        let inbox = Alone::new(alloc, number);
        let Ok(instance) = Instance::new(alloc, self.system, process, who, values, inbox) else {
            return Err(AllocError);
        };
        self.agenda.ready.wake(number)?;
        self.members.push(Member::fresh(alloc, instance))?;
        self.roster.enter(id, number)?;
        Ok(())
    }
}

/// Whether the two are the same.
fn is_same(one: Target, other: Target) -> bool
    ensures { IsTrue result ↔ (one ≡ other) }
{
    one == other
}
