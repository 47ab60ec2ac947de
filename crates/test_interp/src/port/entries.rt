//! Entries of instances, made and found in one thread and in two.

ghost use Rattle.std.specs.Prelude.{◌≡◌, ◌<◌, ◌≤◌};

use port_model::Pid;
use sdl_system::ProcessId;
use std::thread;
use std::thread::Threads;
use threads_ports::{Entered, Entries};

fn entered(pid: u32, process: u32) -> Entered
    ensures { result.pid ≡ pid }
{
    Entered {
        pid,
        process: ProcessId(process),
        parent: Pid::Null,
    }
}

/// Two threads enter an instance each: whether each call was granted.
fn enter_both<R: Threads + Sync>(
    rt: &R,
    entries: &Entries,
    one: Entered,
    two: Entered,
) -> (bool, bool)
    requires one { (0 < one.pid) × (one.pid ≤ 1000) }
    requires two { (0 < two.pid) × (two.pid ≤ 1000) }
{
    thread::join(
        rt,
        move || -> bool
            requires { (0 < one.pid) × (one.pid ≤ 1000) }
        { entries.enter(one).is_ok() },
        move || -> bool
            requires { (0 < two.pid) × (two.pid ≤ 1000) }
        { entries.enter(two).is_ok() },
    )
}

/// Two threads look for a number each.
fn find_both<R: Threads + Sync>(
    rt: &R,
    entries: &Entries,
    one: u32,
    two: u32,
) -> (Option<Entered>, Option<Entered>) {
    thread::join(
        rt,
        move || entries.find(one).copied(),
        move || entries.find(two).copied(),
    )
}

/// The entries that are found under the numbers 0, 1, 1000 and 1001.
fn found(entries: &Entries) -> [Option<Entered>; 4] {
    [
        entries.find(0).copied(),
        entries.find(1).copied(),
        entries.find(1000).copied(),
        entries.find(1001).copied(),
    ]
}

#[test]
fn finds_what_was_entered(rt: HostRuntime) {
    let entries = Entries::new(rt.alloc()).expect(&rt, "memory");
    let (first, last) = (entered(1, 5), entered(1000, 6));
    assert!(rt; found(&entries) == [None; 4]);
    assert!(rt; entries.enter(first).is_ok() && entries.enter(last).is_ok());
    assert!(rt; entries.enter(entered(1, 7)).is_err());
    assert!(rt; found(&entries) == [None, Some(first), Some(last), None]);
}

#[test]
fn threads_find_what_others_entered(rt: HostRuntime) {
    let entries = Entries::new(rt.alloc()).expect(&rt, "memory");
    let (one, two) = (entered(1, 5), entered(2, 6));
    assert!(rt; enter_both(&rt, &entries, one, two) == (true, true));
    assert!(rt; find_both(&rt, &entries, 2, 1) == (Some(two), Some(one)));
}

/// Of two threads that enter under one number one is refused, and what the other entered is found.
#[test]
fn one_of_two_threads_has_a_number(rt: HostRuntime) {
    let entries = Entries::new(rt.alloc()).expect(&rt, "memory");
    let (one, two) = (entered(7, 5), entered(7, 6));
    let (first, second) = enter_both(&rt, &entries, one, two);
    assert!(rt; first != second);
    let kept = if first { one } else { two };
    assert!(rt; entries.find(7).copied() == Some(kept));
}
