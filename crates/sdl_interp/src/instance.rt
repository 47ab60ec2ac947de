//! An instance of a process (Z.101: agent).

ghost use Rattle.std.specs.Prelude.{◌≡◌, ◌==◌, ◌&&◌, ◌<◌, [], IfOk, IsTrue, MatchResult, Some, false, length, slice_get};
ghost use Rattle.port_model.specs.Calls.{ComesBack, after_entry};
ghost use Rattle.port_model.specs.Ends.{single};
ghost use Rattle.port_model.specs.declared.inbox.entry.Entry.TheVariants.{Timer};
ghost use Rattle.port_model.specs.Port.{empty_port, expires, is_spent, put_into};
ghost use Rattle.run_semantics.specs.Instance.{parameters_from};
ghost use Rattle.sdl_interp.specs.Instance.{HasNothing, HasRunOf, IsAtRest, IsClosed, Keeps, NeedsStep, Steps, came_to, created, variables_from};

use crate::ahead::Ahead;
use crate::stimulus::{fail_at, step_from};
use crate::transitions::{Core, Machine, Position};
use port_model::{Alone, Fuse, Inbox, Item, Refused, Ticks, Value, Values};
use run_record::{Identity, Record, Store, Variables};
use run_semantics::World;
use sdl_system::{Process, System};
use std::alloc::{AllocError, Global};
use std::marker::Model;

/// An instance of a process, with its input port.
#[derive(Drop)]
pub struct Instance<'s, P: Inbox + Drop> {
    core: Core<'s, P>,
    position: Position,
}

impl<'s, P: Inbox + Drop> Model for Instance<'s, P> {
    ghost use Rattle.sdl_interp.specs.Running.{seen};
    ghost use Rattle.sdl_interp.specs.Instance.{InstanceValue, IsInstance, instance_of};
    ghost use Rattle.sdl_system.specs.contracts.expression.Expression as expression;
    ghost use Rattle.std.specs.Coded.{codes};

    ghost Value = { InstanceValue };

    ghost coded = { Prim.hlevel (codes, expression.the_row.coded) };

    ghost view = { λ i. instance_of i.position (seen P.owning P.since i.core) };

    ghost invariant = { λ i. IsInstance P.shared i.position (seen P.owning P.since i.core) };
}

/// The result of a step.
#[derive(Clone, Copy, PartialEq, Eq)]
pub enum Stepped {
    /// A transition, or a discard; the instance lives on.
    Moved,
    /// Nothing could be taken, and no continuous signal is true.
    Idle,
    /// The instance has ended, with this step or before it. `counts`: the step was a transition.
    Ended { counts: bool },
}

/// A closed instance: its record, and its port.
#[derive(Drop)]
pub struct Closed<P: Inbox + Drop> {
    pub trace: Record,
    pub inbox: P,
}

impl<'s, P: Inbox + Drop> Instance<'s, P> {
    /// An instance of a process of the system before its start, with these values of its parameters and an inbox of
    /// which nothing was asked so far. The process is the one that the system has at the number of it that stands in
    /// `who`. For lack of memory the inbox comes back.
    pub fn new(
        alloc: Global,
        system: &'s System,
        process: &'s Process,
        who: Identity,
        values: &Values,
        inbox: P,
    ) -> Result<Self, P>
        requires empty { (P.owning inbox).state ≡ empty_port }
        requires drawn { (P.owning inbox).drawn ≡ [] }
        requires own { (P.owning inbox).pid ≡ who.pid }
        requires process { slice_get system.now.processes who.process.0 ≡ Some process.now }
        ensures { MatchResult result
            (λ i. i ≡ created system.now process.now who values.now (P.owning inbox))
            (λ back. back ≡ inbox) }
    {
        let mut trace = Record::new(alloc, who.process, who.pid, who.parent);
        if trace.reserve(2, 0).is_err() {
            return Err(inbox);
        }
        let Ok(variables) = variables_from(alloc, process, values) else {
            return Err(inbox);
        };
        let core = Core {
            system,
            process,
            machine: Machine {
                store: Store::new(variables),
                trace,
            },
            inbox,
        };
        Ok(Instance {
            core,
            position: Position::BeforeStart,
        })
    }

    /// Makes one step: a whole transition, a discard, or what fails the instance in a state; or there is nothing to do.
    /// After the end there is never anything to do.
    pub fn step<W: World>(&mut self, alloc: Global, world: &mut W) -> Stepped
        ensures keeps { Keeps self.old self.new }
        ensures steps { Steps result self.old (W.value world.old) self.new (W.value world.new) }
    {
        let position = match self.position {
            Position::Ended => return Stepped::Ended { counts: false },
            position => position,
        };
        match step_from(alloc, position, &mut self.core, world) {
            Ok(None) => Stepped::Idle,
            Ok(Some(to)) => {
                self.position = to;
                came_to(to)
            }
            Err(why) => {
                fail_at(&mut self.core, world, why);
                self.position = Position::Ended;
                Stepped::Ended { counts: false }
            }
        }
    }

    /// What the next step may find, by a look at the port. Nothing changes.
    #[inline(always)]
    pub fn ahead(&mut self) -> Ahead
        ensures same { self.new ≡ self.old }
        ensures nothing { result ≡ Ahead.Nothing → IsAtRest self.old }
        ensures quiet { result ≡ Ahead.Nothing → HasNothing self.old.position self.old }
        ensures signals { P.shared ≡ false → result ≡ Ahead.Signals → 0 < length self.old.owner.state.waiting }
        ensures perhaps { result ≡ Ahead.Perhaps → NeedsStep self.old.position self.old }
    {
        let Position::In(state) = self.position else {
            return Ahead::Perhaps;
        };
        let Some(table) = self.core.process.table(state) else {
            return Ahead::Perhaps;
        };
        if !self.core.inbox.is_quiet() {
            return Ahead::Signals;
        }
        // An enabling condition may fail, whatever waits.
        if !table.conditions.is_empty() || !table.continuous.is_empty() {
            return Ahead::Perhaps;
        }
        Ahead::Nothing
    }

    /// The record of what the instance did so far.
    pub fn trace(&self) -> &Record
        ensures events { result.now.events ≡ self.now.events }
        ensures run { HasRunOf P.shared self.now }
        ensures listed { slice_get self.now.system.processes result.now.process.0 ≡ Some self.now.process }
    {
        &self.core.machine.trace
    }

    /// The port of the instance.
    pub fn inbox(&self) -> &P
        ensures { P.owning result.now ≡ self.now.owner }
    {
        &self.core.inbox
    }

    /// Who the instance is.
    pub fn who(&self) -> Identity
        ensures { result ≡ self.now.who }
    {
        self.core.machine.who()
    }

    /// Where the instance is between two steps.
    pub fn position(&self) -> Position
        ensures { result ≡ self.now.position }
    {
        self.position
    }

    /// Closes the record of an instance that has not ended: with `Rest` where the run is `whole`, which is asked only
    /// of an instance at rest, else with `Cut`. Takes no memory.
    pub fn close(self, whole: bool) -> Closed<P>
        requires { IsTrue whole → IsAtRest self }
        ensures closed { IsClosed P.shared whole self.entry result.trace }
        ensures inbox { P.owning result.inbox ≡ self.entry.owner }
    {
        let Instance { core, position } = self;
        let Core { machine, inbox, .. } = core;
        let Machine { mut trace, .. } = machine;
        match position {
            Position::BeforeStart => trace.cut(None),
            Position::In(state) if whole => trace.rest(state),
            Position::In(state) => trace.cut(Some(state)),
            Position::Ended => {}
        }
        Closed { trace, inbox }
    }
}

impl<'s> Instance<'s, Alone> {
    /// Nothing stands behind the port of an instance for one thread, and it draws nothing.
    pub fn draws_nothing(&self)
        ensures { let o = self.now.owner in o ≡ single o.pid o.state o.armed }
    {
        let _inbox = &self.core.inbox;
    }

    /// Puts a signal into the port. A stopped port drops it. For lack of memory the signal comes back.
    #[inline(always)]
    pub fn put(&mut self, item: Item) -> Result<(), Refused<Item>>
        ensures { MatchResult result
            (λ _. self.new ≡ record self.old {
              owner = record self.old.owner { state = put_into self.old.owner.state item };
            })
            (λ back. ComesBack back item × (self.new ≡ self.old)) }
    {
        self.core.inbox.put(item)
    }

    /// Expires a timer at a time, and says whether its signal was put: before its due time, after another set or a
    /// reset, and by the fuse of another port, nothing changes. For lack of memory the fuse comes back.
    pub fn expire(&mut self, fuse: Fuse, at: Ticks) -> Result<bool, Refused<Fuse>>
        ensures expired { MatchResult result
            (λ expired. expired ≡ ((fuse.pid == self.old.owner.pid)
            && expires self.old.owner.state fuse.key fuse.arm fuse.due at))
            (λ back. ComesBack back fuse) }
        ensures state { MatchResult result
            (λ _. self.new ≡ record self.old {
              owner = record self.old.owner {
                state = after_entry self.old.owner.pid self.old.owner.state at (Timer fuse);
              };
            })
            (λ _. self.new ≡ self.old) }
    {
        self.core.inbox.expire(fuse, at)
    }

    /// Whether the set of a fuse of this instance is spent: its timer runs by it no more, and never will.
    pub fn is_spent(&self, fuse: &Fuse) -> bool
        ensures { result ≡ is_spent self.now.owner.state fuse.now.key fuse.now.arm fuse.now.due }
    {
        self.core.inbox.is_spent(fuse)
    }
}

/// What a transition that has led there comes to.
fn came_to(to: Position) -> Stepped
    ensures { result ≡ came_to to }
{
    match to {
        Position::Ended => Stepped::Ended { counts: true },
        _ => Stepped::Moved,
    }
}

/// The variables before the start: formal parameters have the values that there are, the others their initial values.
fn variables_from(
    alloc: Global,
    process: &Process,
    values: &Values,
) -> Result<Variables, AllocError>
    ensures { IfOk result (λ variables. variables ≡ variables_from process.now values.now) }
{
    let mut list = parameters_from(alloc, process.parameters, values)?;
    for variable in process.variables.iter().skip(process.parameters as usize) {
        list.push(variable.initial)?;
    }
    Ok(Variables::new(list))
}

/// So many formal parameters, with the values that there are.
fn parameters_from(
    alloc: Global,
    count: u32,
    values: &Values,
) -> Result<Vec<Option<Value>>, AllocError>
    ensures { IfOk result (λ list. list.items ≡ parameters_from count values.now) }
{
    let mut list = Vec::new(alloc);
    for index in 0..count as usize {
        list.push(values.get(index))?;
    }
    Ok(list)
}
