//! What no schedule has for sure, by records and courses that are written by hand.

use crate::replay::written::Did::{
    Create, Rest, Send, Start, Take, TakeFirst, TakeOfEnv, Tick, Wait,
};
use crate::replay::written::{Kept, Written, expect_order};
use port_model::{Pid, SignalId};
use sdl_system::{Dest, ProcessId};
use std::alloc::{AllocError, Global};
use view_timeline::{Untold, timeline_in};

const P: ProcessId = ProcessId(0);

const Q: ProcessId = ProcessId(1);

const R: ProcessId = ProcessId(2);

const X: SignalId = SignalId(0);

const Y: SignalId = SignalId(1);

// ---- whole transitions have no order

/// #1 sends x to #2 and then y to #3, and #2 creates #3 as it takes x.
static BETWEEN: &str = "system S; signal x, y;
    process P (1, 1); start; output x to Q; output y to R; nextstate w; state w; endstate; endprocess;
    process Q (1, 1); start; nextstate w; state w; input x; create R; nextstate w; endstate; endprocess;
    process R (0, 1); start; nextstate w; state w; input y; nextstate w; endstate; endprocess;
    endsystem;";

/// The second output of #1 sees this version of the roster, which has three changes in all.
fn between(alloc: Global, seen: u32) -> Result<Written, AllocError> {
    let mut run = Written::new(alloc, 0, &[])?;
    run.add(
        P,
        Pid::Null,
        &[
            Start,
            Send(X, Dest::Process(Q), 2),
            Send(Y, Dest::Process(R), 3),
            Wait,
            Rest,
        ],
        Kept {
            puts: &[],
            drawn: &[0],
            versions: &[2, seen],
            senders: &[(2, 1), (3, 1)],
        },
    )?;
    run.add(
        Q,
        Pid::Null,
        &[Start, Wait, Take(X, 1), Create(R, 3), Wait, Rest],
        Kept {
            puts: &[1],
            drawn: &[0, 1],
            versions: &[3],
            senders: &[],
        },
    )?;
    run.add(
        R,
        Pid::Of(2),
        &[Start, Wait, Take(Y, 1), Wait, Rest],
        Kept {
            puts: &[1],
            drawn: &[0, 1],
            versions: &[],
            senders: &[],
        },
    )?;
    Ok(run)
}

/// Nobody of R lives before the third change, so a version before it is wrong.
#[test]
fn a_step_comes_between_two_outputs(rt: HostRuntime) {
    let alloc = rt.alloc();
    let run = between(alloc, 3).expect(&rt, "a run");
    let order = [1, 1, 2, 2, 2, 2, 2, 3, 3, 1, 1, 3, 3];
    expect_order(&rt, alloc, BETWEEN, "", &run, &order, None);
    let wrong = between(alloc, 2).expect(&rt, "a run");
    expect_order(&rt, alloc, BETWEEN, "", &wrong, &[1, 1, 2, 2, 2], Some(1));
    assert!(rt; timeline_in(alloc, &run.report, &order).is_ok());
    match timeline_in(alloc, &run.report, &[1, 1, 1, 1]) {
        Err(Untold::Stuck { number, .. }) => assert!(rt; number == 1),
        _ => assert!(rt; false, "a whole transition of #1"),
    }
}

// ---- who isn't there yet

/// #1 sends to the number 3 before and after #2 makes who has it.
static LOSING: &str = "system S; signal x, tell(Pid);
    process P (1, 1); dcl p Pid; start; nextstate w;
    state w; input tell(p); output x to p; output x to p; nextstate w; endstate; endprocess;
    process Q (1, 1); start; nextstate w; state w; input x; create R; nextstate w; endstate; endprocess;
    process R (0, 1); start; nextstate w; state w; input x; nextstate w; endstate; endprocess;
    endsystem;";

/// One of the signals of #1 was put. The create of #2 made this version of the roster.
fn losing(alloc: Global, made: u32) -> Result<Written, AllocError> {
    let mut run = Written::new(alloc, 1, &[(1, 1), (2, 1)])?;
    let to = Dest::Pid(Pid::Of(3));
    run.add(
        P,
        Pid::Null,
        &[
            Start,
            Wait,
            Tick,
            TakeOfEnv(Y, Some(3)),
            Send(X, to, 3),
            Send(X, to, 3),
            Wait,
            Rest,
        ],
        Kept {
            puts: &[1],
            drawn: &[0, 1],
            versions: &[],
            senders: &[(3, 1)],
        },
    )?;
    run.add(
        Q,
        Pid::Null,
        &[
            Start,
            Wait,
            Tick,
            TakeOfEnv(X, None),
            Create(R, 3),
            Wait,
            Rest,
        ],
        Kept {
            puts: &[1],
            drawn: &[0, 1],
            versions: &[made],
            senders: &[],
        },
    )?;
    run.add(
        R,
        Pid::Of(2),
        &[Tick, Start, Wait, Take(X, 1), Wait, Rest],
        Kept {
            puts: &[1],
            drawn: &[0, 1],
            versions: &[],
            senders: &[],
        },
    )?;
    Ok(run)
}

/// No third change is there, so none makes the fourth version. Who is never made gets nothing.
#[test]
fn the_first_is_lost(rt: HostRuntime) {
    let alloc = rt.alloc();
    let script = "1 tell(#3) to #1\n1 x to #2\n";
    let run = losing(alloc, 3).expect(&rt, "a run");
    let order = [1, 1, 2, 2, 0, 0, 1, 1, 2, 2, 2, 3, 3, 1, 1, 3, 3];
    expect_order(&rt, alloc, LOSING, script, &run, &order, None);
    let wrong = losing(alloc, 4).expect(&rt, "a run");
    let part = [1, 1, 2, 2, 0, 0, 1, 1, 2];
    expect_order(&rt, alloc, LOSING, script, &wrong, &part, Some(1));
}

// ---- who has a priority

/// #3 prefers the signal of #2, and takes that of #1 first, since the other isn't there yet.
static PREFERRING: &str = "system S; signal x, y;
    process P (1, 1); start; output x to R; nextstate w; state w; endstate; endprocess;
    process Q (1, 1); start; output y to R; nextstate w; state w; endstate; endprocess;
    process R (1, 1); start; nextstate w;
    state w; priority input y; nextstate w; input x; nextstate w; endstate; endprocess;
    endsystem;";

/// #3 had drawn one entry when it took x.
fn preferring(alloc: Global) -> Result<Written, AllocError> {
    let mut run = Written::new(alloc, 0, &[])?;
    let to = Dest::Process(R);
    run.add(
        P,
        Pid::Null,
        &[Start, Send(X, to, 3), Wait, Rest],
        Kept {
            puts: &[],
            drawn: &[0],
            versions: &[3],
            senders: &[(3, 1)],
        },
    )?;
    run.add(
        Q,
        Pid::Null,
        &[Start, Send(Y, to, 3), Wait, Rest],
        Kept {
            puts: &[],
            drawn: &[0],
            versions: &[3],
            senders: &[(3, 2)],
        },
    )?;
    run.add(
        R,
        Pid::Null,
        &[Start, Wait, Take(X, 1), Wait, TakeFirst(Y, 2), Wait, Rest],
        Kept {
            puts: &[1, 2],
            drawn: &[0, 1, 2],
            versions: &[],
            senders: &[],
        },
    )?;
    Ok(run)
}

#[test]
fn who_has_a_priority_is_put_behind_the_look(rt: HostRuntime) {
    let alloc = rt.alloc();
    let run = preferring(alloc).expect(&rt, "a run");
    let order = [1, 1, 1, 2, 3, 3, 3, 3, 2, 2, 3, 3];
    expect_order(&rt, alloc, PREFERRING, "", &run, &order, None);
}
