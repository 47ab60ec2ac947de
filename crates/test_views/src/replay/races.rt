//! Runs whose order depends on who comes first.

use crate::replay::told::{LIMIT, expect_orders};

/// A sends x to Q as B creates it.
static LATE: &str = "system R; signal x;
    process A (1, 1); timer T; start; set(now + 5, T); nextstate w; state w; input T; output x to Q; nextstate w;
    endstate; endprocess;
    process B (1, 1); timer T; start; set(now + 5, T); nextstate w; state w; input T; create Q; nextstate w;
    endstate; endprocess;
    process Q (0, 1); start; nextstate w; state w; input x; nextstate w; endstate; endprocess;
    endsystem;";

/// A computes long before it sends to C, and B sends at once.
static OVERTAKEN: &str = "system R; signal a, b;
    process A (1, 1); dcl n Integer := 0; start; again: task n := n + 1;
    decision n < 2000; (true): join again; else: enddecision; output a to C; nextstate w; state w; endstate;
    endprocess;
    process B (1, 1); start; output b to C; nextstate w; state w; endstate; endprocess;
    process C (1, 1); start; nextstate w; state w; input a; nextstate w; input b; nextstate w; endstate; endprocess;
    endsystem;";

/// Six instances make others, of which two may live at a time, send to one by name and to their own, and these end.
static CREATES: &str = "system R; signal go, x;
    process A (6, 6); dcl n Integer := 0; start; output go to self; nextstate w;
    state w; input go; task n := n + 1; create Q; output x to Q; output x to offspring;
    decision n < 20; (true): output go to self; else: enddecision; nextstate w; endstate; endprocess;
    process Q (0, 2); start; nextstate w; state w; input x; stop; endstate; endprocess;
    endsystem;";

/// Instances are made whom others look up to ask, and who answer those who ask by their numbers.
static ASKED: &str = "system R; signal go, ask, answer;
    process A (4, 4); dcl n Integer := 0; start; output ask to Q; output go to self; nextstate w;
    state w; input go; task n := n + 1; output ask to Q; output ask to B;
    decision n < 15; (true): output go to self; else: enddecision; nextstate w;
    input answer; nextstate w; endstate; endprocess;
    process B (1, 1); start; create Q; nextstate w; state w; input ask; create Q; output answer to sender; nextstate w;
    endstate; endprocess;
    process Q (0, 3); dcl n Integer := 0; start; nextstate w;
    state w; input ask; task n := n + 1; output answer to sender; output answer to A;
    decision n < 3; (true): nextstate w; else: stop; enddecision; endstate; endprocess;
    endsystem;";

/// A and B send to the numbers that the script gives them, before and after C makes who has them. Nobody gets #900.
static NUMBERED: &str = "system R; signal tell(Pid), go, x;
    process A (3, 3); dcl p Pid; dcl n Integer := 0; start; nextstate w;
    state w; input tell(p); output go to self; nextstate w;
    input go; task n := n + 1; output x to p; decision n < 40; (true): output go to self; else: enddecision;
    nextstate w; endstate; endprocess;
    process C (1, 1); dcl n Integer := 0; start; nextstate w;
    state w; input go; task n := n + 1; decision n < 10; (true): output go to self; else: create Q; create Q;
    enddecision; nextstate w; endstate; endprocess;
    process Q (0, 2); dcl n Integer := 0; start; nextstate w;
    state w; input x; task n := n + 1; decision n < 30; (true): nextstate w; else: stop; enddecision; endstate;
    endprocess;
    endsystem;";

static NUMBERS: &str =
    "1 tell(#5) to #1\n1 tell(#6) to #2\n1 tell(#900) to #3\n1 go to C\n1 x to #5\n2 x to #5\n";

#[test]
fn who_is_made_as_another_sends(rt: HostRuntime) {
    expect_orders(&rt, rt.alloc(), LATE, "10", LIMIT, true);
}

#[test]
fn who_is_overtaken(rt: HostRuntime) {
    expect_orders(&rt, rt.alloc(), OVERTAKEN, "", LIMIT, true);
}

#[test]
fn who_gets_the_last_place(rt: HostRuntime) {
    expect_orders(&rt, rt.alloc(), CREATES, "", LIMIT, true);
}

#[test]
fn who_is_asked(rt: HostRuntime) {
    expect_orders(&rt, rt.alloc(), ASKED, "", LIMIT, true);
}

#[test]
fn who_has_a_number_of_the_script(rt: HostRuntime) {
    expect_orders(&rt, rt.alloc(), NUMBERED, NUMBERS, LIMIT, true);
}
