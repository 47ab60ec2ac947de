//! What goes into a port from an instance, and that it is drawn there.

ghost use Rattle.std.specs.Prelude.{◌≡◌};
ghost use Rattle.port_model.specs.declared.values.pid.Pid.TheVariants.{Of};

use input_port::{Owner, Port, Sender};
use port_model::{Item, Pid, SignalId, Values};
use std::alloc::Global;
use std::process::Abort;
use std::sync::Wait;

/// A signal of the instance 1.
pub fn item(alloc: Global) -> Item
    ensures { result.sender ≡ Of 1 }
{
    Item {
        name: SignalId(5),
        values: Values::none(alloc),
        sender: Pid::Of(1),
    }
}

/// Once the sender is gathered, so many signals are drawn.
pub fn expect_drawn<R: Wait + Abort>(
    rt: &R,
    port: &Port,
    mut owner: Owner,
    sender: Sender,
    signals: u64,
)
    requires owner { owner.port ≡ port.now.queue }
    requires sender { sender.port ≡ port.now.queue }
{
    assert!(rt; owner.gather(rt, port, sender).is_ok());
    assert!(rt; owner.drain(rt, port).is_ok());
    assert!(rt; owner.signals() == signals);
}
