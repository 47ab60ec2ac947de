//! An instance over the port of many senders and one owner.

ghost use Rattle.std.specs.Prelude.{◌≡◌, []};
ghost use Rattle.port_model.specs.Port.{empty_port};

use crate::case::{Play, identity};
use crate::play::{Subject, finish, play};
use crate::runtime::{OWN, Runtime};
use input_port::birth::port;
use input_port::{Held, NewPort, Port, Sender};
use port_model::{Fuse, Item, Ticks};
use run_record::Record;
use sdl_interp::{Instance, Stepped};
use std::alloc::Global;
use std::process::Abort;
use std::sync::Wait;

/// The instance, its port, and a sender of that port.
#[derive(Drop)]
struct Sharing<'s, 'a, R: Wait + Copy> {
    rt: R,
    port: &'a Port,
    sender: Sender,
    instance: Instance<'s, Held<'a, R>>,
    ghost own: { sender.port ≡ port.now.queue },
}

impl<R: Wait + Copy> Subject for Sharing<'_, '_, R> {
    fn advance(&mut self, alloc: Global, runtime: &mut Runtime<'_>) -> Stepped {
        self.instance.step(alloc, runtime)
    }

    fn hear(&mut self, item: Item) -> bool {
        self.sender.put(&self.rt, self.port, item).is_ok()
    }

    fn hear_expiry(&mut self, fuse: Fuse, at: Ticks) -> bool {
        self.sender.expire(&self.rt, self.port, fuse, at).is_ok()
    }
}

/// Runs the first process of the system, and gives its record.
pub fn record_shared<R: Abort + Wait + Copy>(
    rt: R,
    alloc: Global,
    played: Play<'_>,
    runtime: &mut Runtime<'_>,
) -> Record {
    let NewPort {
        port,
        owner,
        mut desk,
    } = port(alloc, OWN).expect(&rt, "a port");
    let sender = desk.sender(&port).expect(&rt, "a sender");
    let inbox = Held::new(rt, &port, owner);
    record_of(rt, alloc, &port, inbox, sender, played, runtime)
}

/// The same over a port, its owner and a sender of it.
fn record_of<'a, R: Abort + Wait + Copy>(
    rt: R,
    alloc: Global,
    port: &'a Port,
    inbox: Held<'a, R>,
    sender: Sender,
    played: Play<'_>,
    runtime: &mut Runtime<'_>,
) -> Record
    requires empty { inbox.owner.state ≡ empty_port }
    requires drawn { inbox.owner.drawn ≡ [] }
    requires own { inbox.owner.pid ≡ 1 }
    requires sender { sender.port ≡ port.now.queue }
{
    let Play {
        system,
        values,
        script,
    } = played;
    let who = identity();
    let process = system.process(who.process).expect(&rt, "a process");
    let Ok(instance) = Instance::new(alloc, system, process, who, &values, inbox) else {
        panic!(rt; "no memory for an instance");
    };
    let mut sharing = Sharing {
        rt,
        port,
        sender,
        instance,
    };
    play(&rt, alloc, &mut sharing, runtime, script);
    let Sharing { instance, .. } = sharing;
    finish(alloc, instance, runtime)
}
