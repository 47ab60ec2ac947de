//! What begins a step: the start, or in a state what the port gives, else a continuous signal (Z.101: state, input,
//! save; Z.102: start, priority input, continuous signal).

ghost use Rattle.std.specs.Prelude.{◌≡◌, ◌≢◌, ◌≤◌, ◌<◌, IfErr, IfOk, Some, length};
ghost use Rattle.port_model.specs.declared.taken.Taken.TheVariants as taken;
ghost use Rattle.sdl_interp.specs.Selected.{SelectsBy};
ghost use Rattle.sdl_interp.specs.Stimulus.{Answered, BeginsBy, ContinuesAmiss, ContinuesBy, FailsNow, LeadsTo, Provides, ReactsAmiss, ReactsTo, RespondsAmiss, RespondsTo, Stepped, StepsAmiss, StepsTo};
ghost use Rattle.run_semantics.specs.ControlPoint as place;
ghost use Rattle.sdl_interp.specs.Machine.{IsPositionIn};
ghost use Rattle.sdl_interp.specs.Running.{GoesOn, Reaches, ReadyAt, StaysItself, known_by, seen};
ghost use Rattle.sdl_system.specs.Process.{table_of};

use crate::clock::read_clock;
use crate::continuous::first_true;
use crate::received::{name_of, receive, sender_of, values_of};
use crate::reception::hand_out;
use crate::selection::select;
use crate::transitions::{Core, Position, make_room};
use port_model::{Got, Inbox, Pid, Selection, Taken};
use run_record::Failure;
use run_semantics::World;
use sdl_system::{Continuous, Reaction, Reception, StateId, StateTable};
use std::alloc::Global;

/// One step from a position at which an instance has not ended, and where it has led. None: there is nothing to do.
/// Errors: the failure of a condition or of a take, in a state.
pub fn step_from<P: Inbox + Drop, W: World>(
    alloc: Global,
    position: Position,
    core: &mut Core<'_, P>,
    world: &mut W,
) -> Result<Option<Position>, Failure>
    requires ready { ReadyAt P.owning P.since position core.old }
    requires inside { IsPositionIn core.old.process.now position }
    requires lives { position ≢ Position.Ended }
    ensures same { StaysItself P.owning P.since core.old core.new }
    ensures stepped { IfOk result (λ to. Stepped P.owning P.since position to core.new) }
    ensures going { IfErr result (λ _. GoesOn P.owning P.since core.new) }
    ensures ok { IfOk result (λ to.
        StepsTo P.owning position core.old (W.value world.old) to core.new (W.value world.new)) }
    ensures err { IfErr result
        (StepsAmiss P.owning position core.old (W.value world.old) core.new (W.value world.new)) }
{
    match position {
        Position::BeforeStart => Ok(Some(start(alloc, core, world))),
        Position::In(state) => respond(alloc, state, core, world),
        Position::Ended => unreachable!(),
    }
}

/// A condition or a take has failed: that is recorded at the time of the clock, and the instance ends.
#[inline(never)]
pub fn fail_at<P: Inbox + Drop, W: World>(core: &mut Core<'_, P>, world: &mut W, why: Failure)
    requires { GoesOn P.owning P.since core.old }
    ensures same { StaysItself P.owning P.since core.old core.new }
    ensures fails { FailsNow P.owning core.old (W.value world.old) why core.new }
    ensures quiet { W.value world.new ≡ W.value world.old }
{
    let at = read_clock(&mut core.machine, world);
    core.machine.trace.failed_at(at, why);
    core.inbox.stop();
}

/// Makes the start transition.
#[inline(never)]
fn start<P: Inbox + Drop, W: World>(
    alloc: Global,
    core: &mut Core<'_, P>,
    world: &mut W,
) -> Position
    requires { ReadyAt P.owning P.since Position.BeforeStart core.old }
    ensures same { StaysItself P.owning P.since core.old core.new }
    ensures reached { Reaches P.owning P.since result core.new }
    ensures leads { LeadsTo P.owning place.AtStart core.old (W.value world.old) result core.new (W.value world.new) }
{
    let at = read_clock(&mut core.machine, world);
    core.machine.store.done = 0;
    core.machine.trace.start(at);
    core.make(alloc, None, core.process.start, world)
}

/// Responds in a state: takes something from the port and reacts to it. If nothing can be taken, it tries the
/// continuous signals. None: there is nothing to do.
fn respond<P: Inbox + Drop, W: World>(
    alloc: Global,
    state: StateId,
    core: &mut Core<'_, P>,
    world: &mut W,
) -> Result<Option<Position>, Failure>
    requires going { GoesOn P.owning P.since core.old }
    requires inside { state.0 < length core.old.process.now.states.items }
    ensures same { StaysItself P.owning P.since core.old core.new }
    ensures answered { IfOk result (λ to. Answered P.owning P.since to core.new) }
    ensures going { IfErr result (λ _. GoesOn P.owning P.since core.new) }
    ensures ok { IfOk result (λ to.
        RespondsTo P.owning state core.old (W.value world.old) to core.new (W.value world.new)) }
    ensures err { IfErr result
        (RespondsAmiss P.owning state core.old (W.value world.old) core.new (W.value world.new)) }
{
    // Each state has a table.
    let Some(table) = core.process.table(state) else {
        return Ok(None);
    };
    if !table.conditions.is_empty() {
        return select_and_take(alloc, state, table, core, world);
    }
    take_by(alloc, state, table, &table.selection, core, world)
}

/// The enabling conditions of the state tell what is taken.
#[inline(never)]
fn select_and_take<P: Inbox + Drop, W: World>(
    alloc: Global,
    state: StateId,
    table: &StateTable,
    core: &mut Core<'_, P>,
    world: &mut W,
) -> Result<Option<Position>, Failure>
    requires going { GoesOn P.owning P.since core.old }
    requires table { table_of core.old.process.now state ≡ Some table.now }
    ensures same { StaysItself P.owning P.since core.old core.new }
    ensures answered { IfOk result (λ to. Answered P.owning P.since to core.new) }
    ensures going { IfErr result (λ _. GoesOn P.owning P.since core.new) }
    ensures ok { IfOk result (λ to.
        RespondsTo P.owning state core.old (W.value world.old) to core.new (W.value world.new)) }
    ensures err { IfErr result
        (RespondsAmiss P.owning state core.old (W.value world.old) core.new (W.value world.new)) }
{
    let own = select(alloc, table, core.process, &core.knowledge())?;
    take_by(alloc, state, table, &own, core, world)
}

/// Takes from the port what the state selects.
#[inline(always)]
fn take_by<P: Inbox + Drop, W: World>(
    alloc: Global,
    state: StateId,
    table: &StateTable,
    selection: &Selection,
    core: &mut Core<'_, P>,
    world: &mut W,
) -> Result<Option<Position>, Failure>
    requires going { GoesOn P.owning P.since core.old }
    requires table { table_of core.old.process.now state ≡ Some table.now }
    requires selects { SelectsBy core.old.process.now table.now (known_by (seen P.owning P.since core.old))
        selection.now }
    ensures same { StaysItself P.owning P.since core.old core.new }
    ensures answered { IfOk result (λ to. Answered P.owning P.since to core.new) }
    ensures going { IfErr result (λ _. GoesOn P.owning P.since core.new) }
    ensures ok { IfOk result (λ to.
        RespondsTo P.owning state core.old (W.value world.old) to core.new (W.value world.new)) }
    ensures err { IfErr result
        (RespondsAmiss P.owning state core.old (W.value world.old) core.new (W.value world.new)) }
{
    make_room(&mut core.machine, 0)?;
    match core.inbox.take(selection) {
        Ok(taken) => react(alloc, state, table, &taken, core, world),
        Err(_) => Err(Failure::Memory),
    }
}

/// Reacts to what the port gave. None: there is nothing to do.
fn react<P: Inbox + Drop, W: World>(
    alloc: Global,
    state: StateId,
    table: &StateTable,
    taken: &Taken,
    core: &mut Core<'_, P>,
    world: &mut W,
) -> Result<Option<Position>, Failure>
    requires going { GoesOn P.owning P.since core.old }
    requires room { 2 ≤ core.old.machine.trace.room }
    requires table { table_of core.old.process.now state ≡ Some table.now }
    ensures same { StaysItself P.owning P.since core.old core.new }
    ensures answered { IfOk result (λ to. Answered P.owning P.since to core.new) }
    ensures going { IfErr result (λ _. GoesOn P.owning P.since core.new) }
    ensures ok { IfOk result (λ to.
        ReactsTo P.owning state taken.now core.old (W.value world.old) to core.new (W.value world.new)) }
    ensures err { IfErr result
        (ReactsAmiss P.owning state taken.now core.old (W.value world.old) core.new (W.value world.new)) }
{
    match taken {
        Taken::Consumed(got) => consume(alloc, state, got, core, world),
        Taken::Discarded(got) => discard(state, got, core, world),
        Taken::Nothing => try_continuous(alloc, state, &table.continuous, core, world),
    }
}

/// The state has no input of the signal, and doesn't save it.
#[inline(never)]
fn discard<P: Inbox + Drop, W: World>(
    state: StateId,
    got: &Got,
    core: &mut Core<'_, P>,
    world: &mut W,
) -> Result<Option<Position>, Failure>
    requires going { GoesOn P.owning P.since core.old }
    requires inside { state.0 < length core.old.process.now.states.items }
    ensures same { StaysItself P.owning P.since core.old core.new }
    ensures answered { IfOk result (λ to. Answered P.owning P.since to core.new) }
    ensures going { IfErr result (λ _. GoesOn P.owning P.since core.new) }
    ensures ok { IfOk result (λ to. ReactsTo P.owning state (taken.Discarded got.now)
        core.old (W.value world.old) to core.new (W.value world.new)) }
    ensures err { IfErr result (ReactsAmiss P.owning state (taken.Discarded got.now)
        core.old (W.value world.old) core.new (W.value world.new)) }
{
    make_room(&mut core.machine, values_of(got).len())?;
    let at = read_clock(&mut core.machine, world);
    core.machine.store.sender = sender_of(got, core.machine.trace.pid());
    core.machine.trace.discarded(at, got);
    Ok(Some(Position::In(state)))
}

/// An input or a priority input takes the signal.
fn consume<P: Inbox + Drop, W: World>(
    alloc: Global,
    state: StateId,
    got: &Got,
    core: &mut Core<'_, P>,
    world: &mut W,
) -> Result<Option<Position>, Failure>
    requires { GoesOn P.owning P.since core.old }
    ensures same { StaysItself P.owning P.since core.old core.new }
    ensures answered { IfOk result (λ to. Answered P.owning P.since to core.new) }
    ensures going { IfErr result (λ _. GoesOn P.owning P.since core.new) }
    ensures ok { IfOk result (λ to. ReactsTo P.owning state (taken.Consumed got.now)
        core.old (W.value world.old) to core.new (W.value world.new)) }
    ensures err { IfErr result (ReactsAmiss P.owning state (taken.Consumed got.now)
        core.old (W.value world.old) core.new (W.value world.new)) }
{
    make_room(&mut core.machine, values_of(got).len())?;
    match core.process.reaction(state, name_of(got)) {
        Some(Reaction::Input { reception, .. }) => {
            let at = receive(got, &mut core.machine, world);
            core.machine.trace.consumed(at, got);
            Ok(Some(begin(alloc, state, reception, got, core, world)))
        }
        Some(Reaction::Priority(reception)) => {
            let at = receive(got, &mut core.machine, world);
            core.machine.trace.prior(at, got);
            Ok(Some(begin(alloc, state, reception, got, core, world)))
        }
        // What is consumed has an input.
        _ => Err(Failure::Memory),
    }
}

/// The values go to the variables of the input, and its transition is made.
#[inline(always)]
fn begin<P: Inbox + Drop, W: World>(
    alloc: Global,
    state: StateId,
    reception: &Reception,
    got: &Got,
    core: &mut Core<'_, P>,
    world: &mut W,
) -> Position
    requires { GoesOn P.owning P.since core.old }
    ensures same { StaysItself P.owning P.since core.old core.new }
    ensures reached { Reaches P.owning P.since result core.new }
    ensures begins { BeginsBy P.owning state reception.now got.now core.old (W.value world.old) result core.new
        (W.value world.new) }
{
    let values = values_of(got);
    if let Err(why) = hand_out(
        &reception.variables,
        values,
        core.process,
        &mut core.machine,
    ) {
        core.fail(why);
        return Position::Ended;
    }
    core.make(alloc, Some(state), reception.begin, world)
}

/// The port gave nothing.
#[inline(never)]
fn try_continuous<P: Inbox + Drop, W: World>(
    alloc: Global,
    state: StateId,
    signals: &[Continuous],
    core: &mut Core<'_, P>,
    world: &mut W,
) -> Result<Option<Position>, Failure>
    requires going { GoesOn P.owning P.since core.old }
    requires room { 2 ≤ core.old.machine.trace.room }
    ensures same { StaysItself P.owning P.since core.old core.new }
    ensures answered { IfOk result (λ to. Answered P.owning P.since to core.new) }
    ensures going { IfErr result (λ _. GoesOn P.owning P.since core.new) }
    ensures ok { IfOk result (λ to.
        ContinuesBy P.owning state signals.now core.old (W.value world.old) to core.new (W.value world.new)) }
    ensures err { IfErr result
        (ContinuesAmiss P.owning state signals.now core.old (W.value world.old) core.new (W.value world.new)) }
{
    let found = first_true(alloc, signals, core.process, &core.knowledge())?;
    match found {
        None => Ok(None),
        Some(signal) => Ok(Some(provide(alloc, state, signal, core, world))),
    }
}

/// The transition of a continuous signal is made, whose condition is true.
fn provide<P: Inbox + Drop, W: World>(
    alloc: Global,
    state: StateId,
    signal: Continuous,
    core: &mut Core<'_, P>,
    world: &mut W,
) -> Position
    requires going { GoesOn P.owning P.since core.old }
    requires room { 2 ≤ core.old.machine.trace.room }
    ensures same { StaysItself P.owning P.since core.old core.new }
    ensures reached { Reaches P.owning P.since result core.new }
    ensures provides { Provides P.owning state signal core.old (W.value world.old) result core.new
        (W.value world.new) }
{
    let at = read_clock(&mut core.machine, world);
    core.machine.store.sender = Pid::Of(core.machine.trace.pid());
    core.machine.store.done = 0;
    core.machine.trace.provided(at, signal.number);
    core.make(alloc, Some(state), signal.begin, world)
}
