//! How the environment puts what it sends.

ghost use Rattle.std.specs.Prelude.{◌≡◌, ◌≤◌, ℕ, false, true, IfOk, OnErr, OnOk};
ghost use Rattle.run_semantics.specs.World.{has_port};
ghost use Rattle.sdl_system.specs.declared.route.Target.TheVariants.{Instance};
ghost use Rattle.threads_shared.specs.Sending.{ArePutAlike, Expires, HavePorts, IsOpened, IsSent};
ghost use Rattle.threads_ports.specs.Peers.{is_known};

use crate::shared::Shared;
use input_port::Port;
use port_model::{Fuse, Item, Ticks};
use sdl_system::Target;
use std::alloc::AllocError;
use std::sync::Wait;
use threads_ports::{NotPut, Peers, Run};

/// Sends a signal to a target: puts a copy of it into the port of the instance, if there is a sender into that port or
/// the instance is entered. Answers the instance. None: the signal is gone. For lack of memory nothing was put.
pub fn send<J: Run, R: Wait + Copy>(
    shared: &Shared<'_, '_, '_, J, R>,
    peers: &mut Peers<J>,
    target: Target,
    item: &Item,
) -> Result<Option<u32>, AllocError>
    requires { HavePorts peers.old }
    ensures ports { HavePorts peers.new }
    ensures sent { IfOk result (λ woken. IsSent target item.now woken peers.old peers.new) }
    ensures err { OnErr result (ArePutAlike peers.old peers.new) }
{
    let Target::Instance(number) = target else {
        return Ok(None);
    };
    // A number that nobody can have.
    let Some(port) = shared.common.ports.port(number) else {
        return Ok(None);
    };
    let copy = Item {
        name: item.name,
        values: item.values.copied()?,
        sender: item.sender,
    };
    match peers.put(shared.rt, port, number, copy) {
        Ok(()) => Ok(Some(number)),
        Err(NotPut::Unknown(copy)) => send_first(shared, peers, port, number, copy),
        Err(NotPut::Memory(_)) => Err(AllocError),
    }
}

/// Sends a signal to an instance into whose port there is no sender: one is opened, if the instance is entered, and
/// puts it. Answers the instance. None: the signal is gone. For lack of memory nothing was put.
fn send_first<J: Run, R: Wait + Copy>(
    shared: &Shared<'_, '_, '_, J, R>,
    peers: &mut Peers<J>,
    port: &Port,
    number: u32,
    item: Item,
) -> Result<Option<u32>, AllocError>
    requires there { has_port number ≡ true }
    requires named { port.now.queue ≡ J.ports number }
    requires unknown { is_known peers.old number ≡ false }
    requires ports { HavePorts peers.old }
    ensures ports { HavePorts peers.new }
    ensures sent { IfOk result (λ woken. IsSent (Instance number) item woken peers.old peers.new) }
    ensures err { OnErr result (ArePutAlike peers.old peers.new) }
{
    if shared.common.entries.find(number).is_none() {
        return Ok(None);
    }
    open(shared, peers, number)?;
    let Ok(()) = peers.put(shared.rt, port, number, item) else {
        return Err(AllocError);
    };
    Ok(Some(number))
}

/// Puts the expiry of a timer into the port of its instance, if an instance can have the number. For lack of memory
/// nothing was put.
pub fn expire<J: Run, R: Wait + Copy>(
    shared: &Shared<'_, '_, '_, J, R>,
    peers: &mut Peers<J>,
    fuse: Fuse,
    at: Ticks,
) -> Result<(), AllocError>
    requires due { fuse.due ≤ at }
    requires ports { HavePorts peers.old }
    ensures ports { HavePorts peers.new }
    ensures signals { ArePutAlike peers.old peers.new }
    ensures put { OnOk result (has_port fuse.pid ≡ true → Expires fuse at peers.old peers.new) }
{
    let number = fuse.pid();
    let Some(port) = shared.common.ports.port(number) else {
        return Ok(());
    };
    open(shared, peers, number)?;
    match peers.expire(shared.rt, port, number, fuse, at) {
        Ok(()) => Ok(()),
        Err(_) => Err(AllocError),
    }
}

/// Sees to it that there is a sender into the port of this instance.
fn open<J: Run, R: Wait + Copy>(
    shared: &Shared<'_, '_, '_, J, R>,
    peers: &mut Peers<J>,
    number: u32,
) -> Result<(), AllocError>
    requires there { has_port number ≡ true }
    requires ports { HavePorts peers.old }
    ensures ports { HavePorts peers.new }
    ensures opened { IsOpened number peers.old peers.new }
    ensures known { OnOk result (is_known peers.new number ≡ true) }
    ensures same { ArePutAlike peers.old peers.new }
{
    if peers.is_known(number) {
        return Ok(());
    }
    let Ok(sender) = shared.common.ports.sender(shared.rt, number) else {
        return Err(AllocError);
    };
    match peers.open(number, sender) {
        Ok(()) => Ok(()),
        Err(_) => Err(AllocError),
    }
}
