//! The clock and the wheel of timers.

ghost use Rattle.std.specs.Prelude.{◌≡◌, ◌≤◌, true};

use port_model::{Alone, Fuse, Inbox, SignalId, Ticks, TimerKey, Values};
use sdl_timers::{NewClock, Reader, SpentFuses, Ticker, Wheel, clock};
use std::alloc::Global;
use std::process::Abort;
use std::thread;

/// Reads the clock by a reader made after `advance(5)`, and by one made of that reader: never a time before 5, by the
/// contracts alone.
fn read_after_five(rt: &impl Abort, ticker: &mut Ticker) -> (Ticks, Ticks)
    requires { ticker.old ≤ 5 }
    ensures { (5 ≤ result.0) × (5 ≤ result.1) }
{
    ticker.advance(Ticks::new(5));
    let mut reader = ticker.reader().expect(rt, "memory");
    let mut again = reader.again().expect(rt, "memory");
    (reader.now(), again.now())
}

#[test]
fn reads_what_the_ticker_set(rt: HostRuntime) {
    let NewClock {
        mut ticker,
        reader: mut first,
    } = clock(rt.alloc()).expect(&rt, "memory");
    let five = Ticks::new(5);
    assert!(rt; first.now() == Ticks::new(0));
    assert!(rt; read_after_five(&rt, &mut ticker) == (five, five));
    ticker.advance(Ticks::new(3));
    assert!(rt; first.now() == five);
}

/// Reads the clock many times. No reading is before an earlier one.
fn never_back(reader: &mut Reader) -> bool {
    let mut before = Ticks::new(0);
    let mut rises = true;
    for _ in 0..10_000 {
        let now = reader.now();
        rises = rises && before <= now;
        before = now;
    }
    rises
}

#[test]
fn reads_while_it_ticks(rt: HostRuntime) {
    let NewClock {
        mut ticker,
        reader: mut first,
    } = clock(rt.alloc()).expect(&rt, "memory");
    let mut second = first.again().expect(&rt, "memory");
    let one = thread::spawn(&rt, move || never_back(&mut first)).expect(&rt, "a thread");
    let two = thread::spawn(&rt, move || never_back(&mut second)).expect(&rt, "a thread");
    for time in 0..10_000 {
        ticker.advance(Ticks::new(time));
    }
    let (one, two) = (one.join(&rt), two.join(&rt));
    assert!(rt; one && two);
    assert!(rt; ticker.reader().expect(&rt, "memory").now().get() == 9_999);
}

/// A timer that this port sets is armed on the wheel. Timer A is 0, timer B is 1.
fn arm(rt: &impl Abort, alloc: Global, wheel: &mut Wheel, port: &mut Alone, timer: u32, due: u64)
    requires { port.old.state.alive ≡ true }
    ensures { port.new.state.alive ≡ true }
{
    let key = TimerKey {
        name: SignalId(timer),
        values: Values::none(alloc),
    };
    let fuse = port.set(key, Ticks::new(due)).expect(rt, "memory");
    assert!(rt; wheel.arm(fuse).is_ok());
}

/// A wheel with the fuses of three sets of port 1 and one of port 2.
fn four_armed(rt: &impl Abort, alloc: Global) -> Wheel {
    let mut first = Alone::new(alloc, 1);
    let mut second = Alone::new(alloc, 2);
    let mut wheel = Wheel::new(alloc);
    arm(rt, alloc, &mut wheel, &mut second, 0, 300);
    arm(rt, alloc, &mut wheel, &mut first, 0, 300);
    arm(rt, alloc, &mut wheel, &mut first, 1, 44);
    arm(rt, alloc, &mut wheel, &mut first, 0, 300);
    wheel
}

/// The next fuse that is due, as its time, its port and its set.
fn fired(wheel: &mut Wheel, to: u64) -> Option<(u64, u32, u64)> {
    let fuse = wheel.fire(Ticks::new(to))?;
    Some((fuse.due().get(), fuse.pid(), fuse.arm().get()))
}

#[test]
fn fires_in_due_order(rt: HostRuntime) {
    let mut wheel = four_armed(&rt, rt.alloc());
    assert!(rt; wheel.slot_len(44) == 4 && wheel.slot_len(43) == 0);
    assert!(rt; wheel.next_due() == Some(Ticks::new(44)));
    assert!(rt; fired(&mut wheel, 43).is_none());
    for expected in [(44, 1, 2), (300, 1, 1), (300, 1, 3), (300, 2, 1)] {
        assert!(rt; fired(&mut wheel, 300) == Some(expected));
    }
    assert!(rt; fired(&mut wheel, 300).is_none());
    assert!(rt; wheel.next_due().is_none() && wheel.slot_len(44) == 0);
}

#[test]
fn fires_by_time_and_not_by_slot(rt: HostRuntime) {
    let alloc = rt.alloc();
    let mut wheel = Wheel::new(alloc);
    assert!(rt; wheel.next_due().is_none());
    for due in [1000, 5, 256, 999, 0, 255, u64::MAX] {
        let mut port = Alone::new(alloc, 7);
        arm(&rt, alloc, &mut wheel, &mut port, 0, due);
    }
    for due in [0, 5, 255, 256, 999, 1000, u64::MAX] {
        assert!(rt; wheel.next_due() == Some(Ticks::new(due)));
        if due > 0 {
            assert!(rt; fired(&mut wheel, due - 1).is_none());
        }
        assert!(rt; fired(&mut wheel, due) == Some((due, 7, 1)));
    }
}

/// Which fuses of one port have no effect any more.
#[derive(Drop)]
struct OfPort<'a> {
    port: &'a Alone,
}

impl<'a> SpentFuses for OfPort<'a> {
    ghost use Rattle.port_model.specs.Port.{is_spent};

    ghost spent = { λ known fuse. is_spent known.port.now.state fuse.key fuse.arm fuse.due };

    fn is_spent(&self, fuse: &Fuse) -> bool {
        self.port.is_spent(fuse)
    }
}

/// Each set of a timer leaves the fuse of the set before it without effect. Once there are many, they go, and no clause
/// says when.
#[test]
fn spent_fuses_go(rt: HostRuntime) {
    let alloc = rt.alloc();
    let mut wheel = Wheel::new(alloc);
    let mut port = Alone::new(alloc, 7);
    for due in 1..=1_025 {
        assert!(rt; due == 1 || wheel.next_due() == Some(Ticks::new(1)));
        arm(&rt, alloc, &mut wheel, &mut port, 0, due);
        wheel.thin(&OfPort { port: &port });
    }
    assert!(rt; fired(&mut wheel, 2_000) == Some((1_025, 7, 1_025)));
    assert!(rt; wheel.next_due().is_none());
}
