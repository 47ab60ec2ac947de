//! Who lives in a system of two processes, of which the first may have two instances and the second any number.

use indexmap::IndexMap;
use sdl_system::{NodeId, Process, ProcessId, Routes, SignalSet, System};
use std::alloc::Global;
use std::process::Abort;
use threads_ports::Roster;

const PAIR: ProcessId = ProcessId(0);

const MANY: ProcessId = ProcessId(1);

const NONE: ProcessId = ProcessId(2);

fn process(alloc: Global, maximum: Option<u32>) -> Process {
    Process {
        name: String::new(alloc),
        initial: 1,
        maximum,
        parameters: 0,
        variables: Vec::new(alloc),
        valid: SignalSet::new(Vec::new(alloc)),
        states: Vec::new(alloc),
        tables: Vec::new(alloc),
        conditions: Vec::new(alloc),
        nodes: Vec::new(alloc),
        start: NodeId(0),
    }
}

fn roster(rt: &impl Abort, alloc: Global) -> Roster {
    let routes = Routes {
        lists: Vec::new(alloc),
        env: Vec::new(alloc),
        processes: Vec::new(alloc),
    };
    let processes = vec![in alloc; process(alloc, Some(2)), process(alloc, None)];
    let system = System::new(
        Vec::new(alloc),
        processes.expect(rt, "memory"),
        routes,
        IndexMap::new(alloc),
        IndexMap::new(alloc),
    );
    Roster::new(alloc, &system).expect(rt, "memory")
}

#[test]
fn reserves_up_to_the_maximum(rt: HostRuntime) {
    let mut roster = roster(&rt, rt.alloc());
    assert!(rt; roster.reserve(PAIR) && roster.reserve(PAIR) && !roster.reserve(PAIR));
    roster.release(PAIR);
    assert!(rt; roster.live(PAIR, 1) && !roster.live(PAIR, 2));
    assert!(rt; roster.reserve(PAIR) && !roster.live(PAIR, 1));
    assert!(rt; !roster.reserve(NONE) && !roster.live(NONE, 1));
}

#[test]
fn least_lives_longest(rt: HostRuntime) {
    let mut roster = roster(&rt, rt.alloc());
    assert!(rt; roster.reserve(MANY) && roster.live(MANY, 1000) && roster.live(MANY, 64));
    assert!(rt; roster.living() == [None, Some(64)].as_slice());
    roster.end(MANY, 64);
    assert!(rt; roster.least(MANY) == Some(1000) && roster.least(NONE).is_none());
}
