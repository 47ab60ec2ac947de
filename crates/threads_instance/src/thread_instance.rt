//! An instance with its senders.

ghost use Rattle.std.specs.Prelude.{◌≡◌, [], IsTrue, MatchOption, MatchResult, None, Some, length, slice_get};
ghost use Rattle.port_model.specs.Port.{empty_port};
ghost use Rattle.port_model.specs.KeptWords.{Notes, NotesAll, emptied};
ghost use Rattle.sdl_interp.specs.Instance.{HasNothing, HasRunOf, IsAtRest, IsClosed, IsRunAs, Keeps, NeedsStep, Steps, created};
ghost use Rattle.threads_instance.specs.Doings.{children_of};
ghost use Rattle.threads_instance.specs.RunBy.{HasRunBy};
ghost use Rattle.threads_instance.specs.ThreadWorld.{world_of};
ghost use Rattle.threads_instance.specs.ThreadInstance.{HasPut, HasSent, IsSeated};
ghost use Rattle.threads_ports.specs.Peers.{ArePeersOf};
ghost use Rattle.run_semantics.specs.ControlPoint.{Definition};

use crate::doings::{Doings, Gifts};
use crate::outbox::Outbox;
use crate::runtime::Runtime;
use crate::thread_world::ThreadWorld;
use input_port::Held;
use port_model::{CourseLog, Inbox, KeptWords, Ticks, Values};
use run_record::{Identity, Record};
use sdl_interp::{Ahead, Closed, Instance, Stepped};
use sdl_system::{Process, System};
use std::alloc::Global;
use std::marker::Model;
use std::mem;
use std::sync::Wait;
use threads_ports::{Peers, Run};

/// An instance of a process in a run on threads, with its senders, in its seat: of the run's system, and with the port
/// of its number. What was put into each port is the end of what its record sends there. It began with the values that
/// are given, and has done just what is noted. What is kept of its course is for who makes its steps to note.
#[derive(Drop)]
pub struct ThreadInstance<'s, J: Run, P: Inbox + Drop> {
    system: &'s System,
    instance: Instance<'s, P>,
    outbox: Outbox<J>,
    given: Values,
    doings: Doings,
    course: CourseLog,
}

impl<'s, J: Run, P: Inbox + Drop> Model for ThreadInstance<'s, J, P> {
    ghost use Rattle.std.specs.Prelude.{◌≡◌};
    ghost use Rattle.std.specs.Coded.{codes};
    ghost use Rattle.threads_instance.specs.RunBy.{HasRunBy};
    ghost use Rattle.threads_instance.specs.ThreadInstance.{HasSent, IsSeated, ThreadInstanceState};
    ghost use Rattle.sdl_system.specs.contracts.expression.Expression as expression;

    ghost Value = { ThreadInstanceState };

    ghost coded = { Prim.hlevel (codes, expression.the_row.coded) };

    ghost view = { λ m. record {
      instance = m.instance;
      peers = m.outbox.peers;
      sent = m.outbox.sent;
      given = m.given;
      effects = m.doings.effects;
      children = m.doings.children;
      course = m.course;
    } };

    ghost invariant = { λ m. (m.instance.system ≡ m.system.now) × HasSent m.instance m.outbox.sent
        × IsSeated J.system J.ports m.instance × HasRunBy P.shared m.instance m.given m.doings.effects };
}

/// A closed instance: its record, its port, and its senders, which are to be gathered at their ports; what it was given,
/// and gave to those that it created; and what is kept of its course.
#[derive(Drop)]
pub struct Left<J: Run, P: Inbox + Drop> {
    pub trace: Record,
    pub inbox: P,
    pub peers: Peers<J>,
    pub gifts: Gifts,
    pub course: CourseLog,
}

impl<'s, J: Run, P: Inbox + Drop> ThreadInstance<'s, J, P> {
    /// An instance before its start, as `Instance::new` makes it with these values, that has no senders yet and has done
    /// nothing, and of whose course nothing is kept. That the system is the run's, the process the one that the
    /// identity names, and the port that of its number, is the caller's condition. For want of memory the inbox comes
    /// back.
    pub fn new(
        alloc: Global,
        system: &'s System,
        process: &'s Process,
        who: Identity,
        values: Values,
        inbox: P,
    ) -> Result<Self, P>
        requires system { J.system ≡ Some system.now }
        requires process { slice_get system.now.processes who.process.0 ≡ Some process.now }
        requires port { (P.owning inbox).port ≡ J.ports who.pid }
        requires own { (P.owning inbox).pid ≡ who.pid }
        requires empty { (P.owning inbox).state ≡ empty_port }
        requires drawn { (P.owning inbox).drawn ≡ [] }
        ensures { MatchResult result
            (λ m. m ≡ record {
              instance = created system.now process.now who values (P.owning inbox);
              peers = [];
              sent = [];
              given = values;
              effects = [];
              children = [];
              course = record { drawn = None; versions = None };
            })
            (λ back. back ≡ inbox) }
    {
        let instance = match Instance::new(alloc, system, process, who, &values, inbox) {
            Ok(instance) => instance,
            Err(back) => return Err(back),
        };
        Ok(ThreadInstance {
            system,
            instance,
            outbox: Outbox::new(alloc),
            given: values,
            doings: Doings::new(alloc),
            course: CourseLog::off(),
        })
    }

    /// From now on what is noted of its course is kept, as far as there is memory for it.
    pub fn keep_course(&mut self, alloc: Global)
        ensures { self.new ≡ record self.old { course = record { drawn = Some []; versions = Some [] } } }
    {
        self.course = CourseLog::new(alloc);
    }

    /// Makes one step at this time, as `Instance::step` does. What it sends is put at once; where that is refused,
    /// its transition fails for lack of memory. A signal to an instance that is not there yet is gone.
    pub fn step<R: Wait, O: Runtime<J>>(
        &mut self,
        alloc: Global,
        rt: &R,
        runtime: &mut O,
        time: Ticks,
    ) -> Stepped
        ensures keeps { Keeps self.old.instance self.new.instance }
        ensures steps { let system = self.old.instance.system in
            Steps result self.old.instance (world_of system time self.old.sent self.old.effects) self.new.instance
            (world_of system time self.new.sent self.new.effects) }
        ensures given { self.new.given ≡ self.old.given }
        ensures course { self.new.course ≡ self.old.course }
    {
        let own = self.instance.who().pid;
        let outbox = mem::replace(&mut self.outbox, Outbox::new(alloc));
        let doings = mem::replace(&mut self.doings, Doings::new(alloc));
        let mut world = ThreadWorld {
            rt,
            system: self.system,
            own,
            time,
            runtime,
            outbox,
            doings,
        };
        let stepped = self.instance.step(alloc, &mut world);
        let ThreadWorld { outbox, doings, .. } = world;
        self.outbox = outbox;
        self.doings = doings;
        stepped
    }

    /// What the next step may find, as `Instance::ahead` tells it. Nothing changes.
    #[inline(always)]
    pub fn ahead(&mut self) -> Ahead
        ensures same { self.new ≡ self.old }
        ensures nothing { result ≡ Ahead.Nothing → IsAtRest self.old.instance }
        ensures quiet { result ≡ Ahead.Nothing → HasNothing self.old.instance.position self.old.instance }
        ensures perhaps { result ≡ Ahead.Perhaps → NeedsStep self.old.instance.position self.old.instance }
    {
        self.instance.ahead()
    }

    /// The record of what the instance did so far.
    pub fn trace(&self) -> &Record
        ensures events { result.now.events ≡ self.now.instance.events }
        ensures run { HasRunOf P.shared self.now.instance }
    {
        self.instance.trace()
    }

    /// Who the instance is.
    pub fn who(&self) -> Identity
        ensures { result ≡ self.now.instance.who }
    {
        self.instance.who()
    }

    /// That what was sent is what the record says, and what was put the end of that, as a fact.
    pub fn has_put(&self)
        ensures sent { HasSent self.now.instance self.now.sent }
        ensures put { HasPut self.now.instance self.now.peers }
    {
        self.outbox.ends();
    }

    /// That its record is that of a run which began with the values that are given, and has done just what is noted, and
    /// that its children are those that this run has created, as a fact.
    pub fn has_run(&self)
        ensures run { HasRunBy P.shared self.now.instance self.now.given self.now.effects }
        ensures children { self.now.children ≡ children_of self.now.effects }
    {
        self.doings.are_children();
    }

    /// That the instance is in its seat, as a fact.
    pub fn is_seated(&self)
        ensures { IsSeated J.system J.ports self.now.instance }
    {
        let _instance = &self.instance;
    }

    /// Closes its record, as `Instance::close` does, and gives it with the port of its number and its senders, which have
    /// put the end of what the record sends; with the values with which it began, and its children; and with what is kept
    /// of its course.
    pub fn close(self, whole: bool) -> Left<J, P>
        requires { IsTrue whole → IsAtRest self.instance }
        ensures closed { IsClosed P.shared whole self.entry.instance result.trace }
        ensures inbox { P.owning result.inbox ≡ self.entry.instance.owner }
        ensures port { (P.owning result.inbox).port ≡ J.ports result.trace.pid }
        ensures own { (P.owning result.inbox).pid ≡ result.trace.pid }
        ensures peers { result.peers ≡ self.entry.peers }
        ensures given { result.gifts.given ≡ self.entry.given }
        ensures children { result.gifts.children.items ≡ self.entry.children }
        ensures course { result.course ≡ self.entry.course }
        ensures last { (d : Definition) → IsRunAs self.entry.instance d
            → ArePeersOf result.trace.pid result.trace.events result.peers }
    {
        let ThreadInstance {
            instance,
            outbox,
            given,
            doings,
            course,
            ..
        } = self;
        let Closed { trace, inbox } = instance.close(whole);
        Left {
            trace,
            inbox,
            peers: outbox.into_peers(),
            gifts: Gifts {
                given,
                children: doings.into_children(),
            },
            course,
        }
    }
}

impl<'s, 'p, J: Run, R: Wait + Copy> ThreadInstance<'s, J, Held<'p, R>> {
    /// Notes a step in its course: how many entries are drawn from its port by then, and these versions of the roster,
    /// which the step has seen or made. They are moved out of the list. That the step is recorded, and is noted once,
    /// is the caller's condition. Where the port doesn't keep who put its entries, they are counted no more.
    pub fn note_step(&mut self, versions: &mut KeptWords)
        ensures drawn { Notes self.old.course.drawn (length self.old.instance.owner.drawn) self.new.course.drawn }
        ensures seen { NotesAll self.old.course.versions versions.old self.new.course.versions }
        ensures moved { versions.new ≡ emptied versions.old }
        ensures rest { self.new ≡ record self.old { course = self.new.course } }
    {
        let drawn = self.instance.inbox().drawn();
        note_count(&mut self.course.drawn, drawn);
        self.course.versions.note_all(versions);
    }
}

/// Notes a count, where it is told. Where it isn't, the counts are kept no more.
fn note_count(counts: &mut KeptWords, told: Option<u32>)
    ensures { MatchOption told (counts.new ≡ None) (λ count. Notes counts.old count counts.new) }
{
    match told {
        Some(count) => counts.note(count),
        None => *counts = KeptWords::off(),
    }
}
