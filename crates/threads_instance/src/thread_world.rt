//! The world of an instance that makes a step in a run on threads.

ghost use Rattle.std.specs.Prelude.{◌≡◌, ◌≤◌, ℕ, false, true, MatchResult, OnErr, OnOk};
ghost use Rattle.port_model.specs.declared.inbox.entry.Entry.TheVariants.{Timer};
ghost use Rattle.threads_instance.specs.Outbox.{sent_in, Arms};
ghost use Rattle.threads_instance.specs.ThreadWorld.{world_of};
ghost use Rattle.threads_ports.specs.Peers.{is_known, PutsTo};
ghost use Rattle.run_semantics.specs.World.{has_port, sent_on};

use crate::doings::Doings;
use crate::outbox::Outbox;
use crate::runtime::Runtime;
use port_model::{Fuse, Item, SignalId, Ticks, Values};
use run_semantics::World;
use sdl_system::{Dest, ProcessId, System, Target};
use std::alloc::AllocError;
use std::sync::Wait;
use threads_ports::{NotPut, Run};

/// The run, what the instance sends with, and what it has done. Its number is `own`, and `time` the time of the step, for
/// which the clock was read once. A signal is put at once.
#[derive(Drop)]
pub struct ThreadWorld<'a, J: Run, R: Wait, O: Runtime<J>> {
    pub rt: &'a R,
    pub system: &'a System,
    pub own: u32,
    pub time: Ticks,
    pub runtime: &'a mut O,
    pub outbox: Outbox<J>,
    pub doings: Doings,
}

impl<'a, J: Run, R: Wait, O: Runtime<J>> World for ThreadWorld<'a, J, R, O> {
    ghost value = { λ w. world_of w.system.now w.time w.outbox.sent w.doings.effects };

    ghost prepared = { λ w. O.prepared w.runtime.now };

    fn now(&mut self) -> Ticks {
        self.time
    }

    fn route(&mut self, system: &System, signal: SignalId, from: ProcessId, to: Dest) -> Target {
        self.runtime.route(system, signal, from, to)
    }

    #[tactic(auto, using(crate::proofs::EffectLemmas::sent_same))]
    fn send(&mut self, target: Target, item: Item) -> Result<(), AllocError> {
        let effects = self.doings.effects().and_sent(target, &item);
        match target {
            Target::Instance(number) => {
                send(self.rt, self.runtime, &mut self.outbox, number, item)?;
            }
            _ => drop(item),
        }
        self.doings.note(effects);
        Ok(())
    }

    /// A timer that is due when it's set is put into the own port.
    fn prepare(&mut self) -> Result<(), AllocError> {
        if self.runtime.port(self.own).is_some() {
            open(self.runtime, &mut self.outbox, self.own)?;
        }
        self.runtime.prepare()
    }

    #[tactic(auto, using(crate::proofs::EffectLemmas::armed_same))]
    fn arm(&mut self, fuse: Fuse) {
        let effects = self.doings.effects().and_armed(&fuse);
        self.doings.note(effects);
        arm(self.rt, self.runtime, &mut self.outbox, self.time, fuse);
    }

    /// The values are kept, to be compared with those with which the instance began.
    fn create(
        &mut self,
        process: ProcessId,
        parent: u32,
        values: Values,
    ) -> Result<Option<u32>, AllocError> {
        self.doings.reserve()?;
        let kept = values.copied()?;
        let made = self.runtime.create(process, parent, values)?;
        if let Some(number) = made {
            self.doings.create(process, number, parent, kept);
        }
        Ok(made)
    }
}

/// Sends a signal to an instance: puts it into its port, if there is a sender into it.
#[tactic(auto, using(crate::proofs::Puts::sent_one, crate::proofs::Puts::sent_nowhere))]
fn send<J: Run, R: Wait, O: Runtime<J>>(
    rt: &R,
    runtime: &mut O,
    outbox: &mut Outbox<J>,
    number: u32,
    item: Item,
) -> Result<(), AllocError>
    ensures ok { OnOk result ((n : ℕ) → sent_in outbox.new.sent n ≡ sent_on (sent_in outbox.old.sent) number item n) }
    ensures err { OnErr result (outbox.new.sent ≡ outbox.old.sent) }
{
    // A number that nobody can have.
    let Some(port) = runtime.port(number) else {
        return Ok(());
    };
    match outbox.put(rt, port, number, item) {
        Ok(()) => Ok(()),
        Err(NotPut::Unknown(back)) => send_first(rt, runtime, outbox, number, back),
        Err(NotPut::Memory(_)) => Err(AllocError),
    }
}

/// Sends a signal to an instance into whose port there is no sender: one is opened, if the instance is there, and puts
/// it.
#[tactic(auto, using(crate::proofs::Puts::sent_one))]
fn send_first<J: Run, R: Wait, O: Runtime<J>>(
    rt: &R,
    runtime: &mut O,
    outbox: &mut Outbox<J>,
    number: u32,
    item: Item,
) -> Result<(), AllocError>
    requires port { has_port number ≡ true }
    requires unknown { is_known outbox.old.peers number ≡ false }
    ensures ok { OnOk result ((n : ℕ) → sent_in outbox.new.sent n ≡ sent_on (sent_in outbox.old.sent) number item n) }
    ensures err { OnErr result (outbox.new.sent ≡ outbox.old.sent) }
{
    // A number that nobody has yet: the signal is gone.
    if !runtime.is_entered(number) {
        outbox.lose(number, item);
        return Ok(());
    }
    open(runtime, outbox, number)?;
    put(rt, runtime, outbox, number, item)
}

/// Sees to it that there is a sender into the port of this instance.
fn open<J: Run, O: Runtime<J>>(
    runtime: &mut O,
    outbox: &mut Outbox<J>,
    number: u32,
) -> Result<(), AllocError>
    requires { has_port number ≡ true }
    ensures known { OnOk result (is_known outbox.new.peers number ≡ true) }
    ensures sent { outbox.new.sent ≡ outbox.old.sent }
{
    if outbox.is_known(number) {
        return Ok(());
    }
    let sender = runtime.sender(number)?;
    outbox.open(number, sender)
}

/// Puts a signal into the port of this instance, by the sender that is there.
#[tactic(auto, using(crate::proofs::Puts::sent_one))]
fn put<J: Run, R: Wait, O: Runtime<J>>(
    rt: &R,
    runtime: &O,
    outbox: &mut Outbox<J>,
    number: u32,
    item: Item,
) -> Result<(), AllocError>
    requires port { has_port number ≡ true }
    requires known { is_known outbox.old.peers number ≡ true }
    ensures ok { OnOk result ((n : ℕ) → sent_in outbox.new.sent n ≡ sent_on (sent_in outbox.old.sent) number item n) }
    ensures err { OnErr result (outbox.new ≡ outbox.old) }
{
    let Some(port) = runtime.port(number) else {
        unreachable!()
    };
    let Ok(()) = outbox.put(rt, port, number, item) else {
        return Err(AllocError);
    };
    Ok(())
}

/// Puts the expiry of a timer into the port of its instance, where its time has come. Else, and for lack of memory, its
/// fuse is kept.
#[tactic(auto, using(crate::proofs::Puts::arms_put, crate::proofs::Puts::arms_kept))]
fn arm<J: Run, R: Wait, O: Runtime<J>>(
    rt: &R,
    runtime: &mut O,
    outbox: &mut Outbox<J>,
    time: Ticks,
    fuse: Fuse,
)
    requires { O.prepared runtime.old ≡ true }
    ensures sent { outbox.new.sent ≡ outbox.old.sent }
    ensures arms { Arms time fuse (O.kept runtime.old) (O.kept runtime.new) outbox.old.peers outbox.new.peers }
{
    if let Err(fuse) = expire(rt, runtime, outbox, time, fuse) {
        runtime.keep(fuse);
    }
}

/// Puts the expiry of a timer into the port of its instance, where its time has come. Else, and for lack of memory, the
/// fuse comes back.
#[tactic(auto, using(crate::proofs::Puts::expired))]
fn expire<J: Run, R: Wait, O: Runtime<J>>(
    rt: &R,
    runtime: &O,
    outbox: &mut Outbox<J>,
    time: Ticks,
    fuse: Fuse,
) -> Result<(), Fuse>
    ensures sent { outbox.new.sent ≡ outbox.old.sent }
    ensures expires { MatchResult result
        (λ _. (fuse.due ≤ time) × PutsTo fuse.pid time (Timer fuse) outbox.old.peers outbox.new.peers)
        (λ back. (back ≡ fuse) × (outbox.new.peers ≡ outbox.old.peers)) }
{
    let own = fuse.pid();
    if fuse.due() > time || !outbox.is_known(own) {
        return Err(fuse);
    }
    let Some(port) = runtime.port(own) else {
        return Err(fuse);
    };
    outbox.expire(rt, port, own, fuse, time)
}
