//! What a listener hears of a run.

use crate::relay::{RELAY, SCRIPT};
use port_model::Ticks;
use sdl_build::build;
use sdl_parse::parse;
use sdl_script::read_script;
use serial_run::{Listener, run_serial_heard};
use std::alloc::Global;
use std::process::Abort;

/// What was heard: how many transitions, the sum of their times, and how many ends.
#[derive(Clone, Copy, PartialEq, Eq)]
struct Heard {
    transitions: u32,
    times: u64,
    ends: u32,
}

/// Notes what it hears. After an end nothing is to come.
#[derive(Drop)]
struct Ear<'h> {
    heard: &'h mut Heard,
}

impl Listener for Ear<'_> {
    fn transition(&mut self, at: Ticks) {
        if self.heard.ends == 0 {
            self.heard.transitions = self.heard.transitions.saturating_add(1);
            self.heard.times = self.heard.times.saturating_add(at.get());
        }
    }

    fn end(&mut self) {
        self.heard.ends = self.heard.ends.saturating_add(1);
    }
}

/// What is heard of the run of the relay, cut after so many transitions.
fn heard_up_to<R: Abort>(rt: &R, alloc: Global, limit: u64) -> Heard {
    let tree = parse(alloc, RELAY.as_bytes()).expect(rt, "a tree");
    let system = build(alloc, &tree).expect(rt, "a system");
    let script = read_script(alloc, &system, SCRIPT.as_bytes()).expect(rt, "a script");
    let mut heard = Heard {
        transitions: 0,
        times: 0,
        ends: 0,
    };
    let ear = Ear { heard: &mut heard };
    let report = run_serial_heard(alloc, &system, &script, limit, ear).expect(rt, "a report");
    drop(report);
    heard
}

#[test]
fn each_transition_is_heard(rt: HostRuntime) {
    // Four are at the time 0, one is at 2, and two are at 3.
    let whole = Heard {
        transitions: 7,
        times: 8,
        ends: 1,
    };
    assert!(rt; heard_up_to(&rt, rt.alloc(), 1_000) == whole);
    let cut = Heard {
        transitions: 5,
        times: 2,
        ends: 1,
    };
    assert!(rt; heard_up_to(&rt, rt.alloc(), 5) == cut);
}
