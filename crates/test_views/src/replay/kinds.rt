//! Runs of all kinds of steps.

use crate::replay::told::{LIMIT, expect_orders};

/// Limits at which runs are cut.
static LIMITS: [u64; 4] = [1, 2, 7, 300];

/// Timers are due at once, or later, are set again, and are reset before they expire or are taken.
static TIMERS: &str = "system R; signal x;
    process A (3, 3); timer T, U; dcl n Integer := 0;
    start; set(now, T); set(now, U); reset(U); set(now + 1, U); set(0, T); output x to B; set(now, T); nextstate w;
    state w; input T; task n := n + 1; output x to B;
    decision n < 10; (true): set(now, T); output x to self; reset(T); set(now, T); else: enddecision; nextstate w;
    input U; set(now + 2, U); set(now, T); nextstate v; input x; nextstate w; endstate;
    state v; save T; input U; nextstate w; input x; set(now + 3, U); reset(U); set(now + 1, U); nextstate -; endstate;
    endprocess;
    process B (1, 1); start; nextstate w; state w; input x; output x to sender; nextstate w; endstate; endprocess;
    endsystem;";

/// Four send to one, which answers, for ever.
static ENDLESS: &str = "system R; signal x;
    process A (4, 4); timer T; start; set(now + 3, T); output x to B; nextstate w;
    state w; input x; output x to B; nextstate w; input T; set(now + 3, T); output x to B; nextstate w; endstate;
    endprocess;
    process B (2, 2); start; nextstate w; state w; input x; output x to sender; nextstate w; endstate; endprocess;
    endsystem;";

/// One who rests until a timer, again and again, for ever.
static TICKING: &str = "system R; signal x;
    process A (3, 3); timer T; start; set(now + 1, T); nextstate w;
    state w; input T; set(now + 1, T); output x to B; nextstate w; endstate; endprocess;
    process B (1, 1); start; nextstate w; state w; input x; nextstate w; endstate; endprocess;
    endsystem;";

/// One kind of signal goes before the other, in one of two states.
static PRIORITY: &str = "system R; signal go, a, b;
    process A (3, 3); dcl n Integer := 0; start; output go to self; nextstate w;
    state w; input go; task n := n + 1; output a to P; output b to P;
    decision n < 25; (true): output go to self; else: enddecision; nextstate w; endstate; endprocess;
    process P (1, 1); start; nextstate w;
    state w; priority input b; nextstate v; input a; nextstate w; endstate;
    state v; save b; input a; nextstate w; endstate; endprocess;
    endsystem;";

/// Continuous signals, enabling conditions and saved signals.
static PROVIDED: &str = "system R; signal go, a, b, c;
    process A (3, 3); dcl n Integer := 0; start; output go to self; nextstate w;
    state w; input go; task n := n + 1; output a to P; output b to P;
    decision n < 25; (true): output go to self; else: enddecision; nextstate w; input c; nextstate w; endstate;
    endprocess;
    process P (1, 1); dcl n Integer := 0; start; nextstate w;
    state w; input a; provided n < 3; task n := n + 1; nextstate w; input b; nextstate v;
    provided n > 1; task n := 0; output c to A; nextstate w; endstate;
    state v; save a; input b; nextstate w; provided n = 1; task n := 2; output c to A; nextstate w; endstate;
    endprocess;
    endsystem;";

/// Instances fail: in a transition, in an enabling condition, and in the condition of a continuous signal.
static FAILING: &str = "system R; signal go, a, b;
    process A (2, 2); dcl n Integer := 0; start; output go to self; nextstate w;
    state w; input go; task n := n + 1; output a to F; output a to G; output a to H; output b to sender;
    decision n < 12; (true): output go to self; else: enddecision; nextstate w; input b; nextstate w; endstate;
    endprocess;
    process F (3, 3); dcl n Integer := 3; start; nextstate w;
    state w; input a; task n := n - 1; output b to A; output a to G;
    decision 6 / n > 0; (true): else: enddecision; nextstate w; endstate; endprocess;
    process G (2, 2); dcl n Integer := 3; start; output a to H; nextstate w;
    state w; input a; provided 6 / n > 0; task n := n - 1; output b to A; nextstate w; endstate; endprocess;
    process H (2, 2); dcl n Integer := 3; start; nextstate w;
    state w; input a; task n := n - 1; output b to A; nextstate w; provided 6 / n > 100; nextstate w; endstate;
    endprocess;
    endsystem;";

/// What goes to the environment, to null, and along paths to whom lives first.
static PATHS: &str = "system R; signal go, a, out;
    process A (2, 2); dcl n Integer := 0; start; nextstate w;
    state w; input go; task n := n + 1; output a; output out; output a to null; create P;
    decision n < 10; (true): output go to self; else: enddecision; nextstate w; endstate; endprocess;
    process P (1, 3); start; nextstate w; state w; input a; output out; stop; endstate; endprocess;
    process Q (0, 1); start; nextstate w; state w; input a; nextstate w; endstate; endprocess;
    endsystem;";

#[test]
fn timers(rt: HostRuntime) {
    expect_orders(&rt, rt.alloc(), TIMERS, "2\n7 x to B\n12", LIMIT, true);
}

#[test]
fn whole_at_once(rt: HostRuntime) {
    expect_orders(&rt, rt.alloc(), TICKING, "", LIMIT, true);
}

#[test]
fn cut(rt: HostRuntime) {
    for limit in &LIMITS {
        expect_orders(&rt, rt.alloc(), ENDLESS, "100", *limit, false);
    }
}

#[test]
fn cut_in_time(rt: HostRuntime) {
    for limit in &LIMITS {
        expect_orders(&rt, rt.alloc(), TICKING, "1000", *limit, false);
    }
}

#[test]
fn priority(rt: HostRuntime) {
    expect_orders(&rt, rt.alloc(), PRIORITY, "", LIMIT, true);
}

#[test]
fn provided(rt: HostRuntime) {
    expect_orders(&rt, rt.alloc(), PROVIDED, "", LIMIT, true);
}

#[test]
fn failing(rt: HostRuntime) {
    expect_orders(&rt, rt.alloc(), FAILING, "", LIMIT, true);
}

#[test]
fn paths(rt: HostRuntime) {
    expect_orders(
        &rt,
        rt.alloc(),
        PATHS,
        "1 go to #1\n1 go to #2\n2 a to P\n3",
        LIMIT,
        true,
    );
}
