//! What an owner draws after its stop: it has no effect on its port, and is kept in a list.
ghost use Rattle.std.specs.Prelude.{◌≡◌, ◌<◌, ◌-◌, ◌++◌, map, vec_len, vec_capacity};
ghost use Rattle.input_port.specs.Words.{entry_of, popped_list, DrainIs, GatherSinceIs, HasDrawnSince, Placed, PullSinceIs};

use crate::queue::refused::refused;
use crate::queue::{Port, Receiver, Sender};
use port_model::{Entry, Placed, PortError, Refused};
use std::sync::Wait;

/// Takes a sender in. For lack of memory it comes back, and nothing changes.
pub fn gather<R: Wait>(
    receiver: &mut Receiver,
    since: &mut Vec<Entry>,
    rt: &R,
    port: &Port,
    sender: Sender,
) -> Result<(), Refused<Sender>>
    requires owner { receiver.old.port ≡ port.now.queue }
    requires sender { sender.port ≡ port.now.queue }
    ensures port { receiver.new.port ≡ receiver.old.port }
    ensures gather { GatherSinceIs receiver.old receiver.new since.old.items since.new.items sender result }
{
    if receiver.gathered() == u64::MAX
        || receiver.signals() == u64::MAX
        || since.reserve(1).is_err()
    {
        return Err(refused(sender));
    }
    let popped = receiver.absorb(rt, port, sender);
    keep(since, popped);
    Ok(())
}

/// Draws all that the queue holds, up to a fresh point.
pub fn drain<R: Wait>(
    receiver: &mut Receiver,
    since: &mut Vec<Entry>,
    rt: &R,
    port: &Port,
) -> Result<(), PortError>
    requires { receiver.old.port ≡ port.now.queue }
    ensures port { receiver.new.port ≡ receiver.old.port }
    ensures drawn { HasDrawnSince receiver.old receiver.new since.old.items since.new.items }
    ensures fresh { DrainIs receiver.new result }
{
    for _ in rt.forever() {
        if !pull(receiver, since, rt, port)? {
            return Ok(());
        }
    }
    unreachable!()
}

/// Draws one entry, if the queue has one.
fn pull<R: Wait>(
    receiver: &mut Receiver,
    since: &mut Vec<Entry>,
    rt: &R,
    port: &Port,
) -> Result<bool, PortError>
    requires { receiver.old.port ≡ port.now.queue }
    ensures port { receiver.new.port ≡ receiver.old.port }
    ensures pulled { PullSinceIs receiver.old receiver.new since.old.items since.new.items result }
{
    if receiver.signals() == u64::MAX || since.reserve(1).is_err() {
        return Err(PortError::Memory);
    }
    match receiver.pop(rt, port) {
        None => Ok(false),
        Some(placed) => {
            since.push_reserved(placed.into_entry());
            Ok(true)
        }
    }
}

/// Puts what was popped into the list, into the room that was made.
fn keep(since: &mut Vec<Entry>, popped: Option<Placed>)
    requires { vec_len since.old < vec_capacity since.old }
    ensures { since.new.items ≡ since.old.items ++ map entry_of (popped_list popped) }
{
    if let Some(placed) = popped {
        since.push_reserved(placed.into_entry());
    }
}
