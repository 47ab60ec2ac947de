//! An instance over the port of one thread.

use crate::case::{Play, identity};
use crate::play::{Subject, finish, play};
use crate::runtime::{OWN, Runtime};
use port_model::{Alone, Fuse, Item, Ticks};
use run_record::Record;
use sdl_interp::{Instance, Stepped};
use std::alloc::Global;
use std::process::Abort;

impl Subject for Instance<'_, Alone> {
    fn advance(&mut self, alloc: Global, runtime: &mut Runtime<'_>) -> Stepped {
        self.step(alloc, runtime)
    }

    fn hear(&mut self, item: Item) -> bool {
        self.put(item).is_ok()
    }

    fn hear_expiry(&mut self, fuse: Fuse, at: Ticks) -> bool {
        self.expire(fuse, at).is_ok()
    }
}

/// Runs the first process of the system, and gives its record.
pub fn record_alone(
    rt: &impl Abort,
    alloc: Global,
    played: Play<'_>,
    runtime: &mut Runtime<'_>,
) -> Record {
    let Play {
        system,
        values,
        script,
    } = played;
    let who = identity();
    let process = system.process(who.process).expect(rt, "a process");
    let inbox = Alone::new(alloc, OWN);
    let Ok(mut instance) = Instance::new(alloc, system, process, who, &values, inbox) else {
        panic!(rt; "no memory for an instance");
    };
    play(rt, alloc, &mut instance, runtime, script);
    finish(alloc, instance, runtime)
}
