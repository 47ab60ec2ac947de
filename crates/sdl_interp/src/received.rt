//! What came from the port, and what is known once it is consumed (Z.101: input).

ghost use Rattle.std.specs.Prelude.{◌≡◌, ◌≤◌};
ghost use Rattle.port_model.specs.Take as port;
ghost use Rattle.run_record.specs.declared.evaluation.identity.Identity.{Identity};
ghost use Rattle.run_record.specs.Event.{values_got};
ghost use Rattle.run_semantics.specs.Reception as reception;
ghost use Rattle.run_semantics.specs.Reception.{receiving};
ghost use Rattle.run_semantics.specs.World.{IsReading};
ghost use Rattle.sdl_interp.specs.Machine.{identity_of};

use crate::clock::read_clock;
use crate::transitions::Machine;
use port_model::{Got, Pid, SignalId, Ticks, Value};
use run_semantics::World;

/// Notes the sender of a consumed signal and the time of its transition, and that no statement of it is done yet. The
/// answer is that time.
pub fn receive<W: World>(got: &Got, machine: &mut Machine, world: &mut W) -> Ticks
    ensures store { machine.new.store ≡ receiving (identity_of machine.old.trace) result got.now machine.old.store }
    ensures trace { machine.new.trace ≡ machine.old.trace }
    ensures later { machine.old.store.time ≤ result }
    ensures reading { IsReading (W.value world.old) machine.old.store.time result }
    ensures quiet { W.value world.new ≡ W.value world.old }
{
    let at = read_clock(machine, world);
    machine.store.sender = sender_of(got, machine.trace.pid());
    machine.store.done = 0;
    at
}

/// The name of what the port gave, a signal's or a timer's.
pub fn name_of(got: &Got) -> SignalId
    ensures { result ≡ port.name_of got.now }
{
    match got {
        Got::Signal(item) => item.name,
        Got::Timer(key) => key.name,
    }
}

/// The values that came with it, in their order.
pub fn values_of(got: &Got) -> &[Value]
    ensures { result.now ≡ values_got got.now }
{
    match got {
        Got::Signal(item) => item.values.as_slice(),
        Got::Timer(key) => key.values.as_slice(),
    }
}

/// Its sender. That of a timer's signal is the instance itself.
pub fn sender_of(got: &Got, pid: u32) -> Pid
    ensures { (who : Identity) → who.pid ≡ pid → result ≡ reception.sender_of who got.now }
{
    match got {
        Got::Signal(item) => item.sender,
        Got::Timer(_) => Pid::Of(pid),
    }
}
