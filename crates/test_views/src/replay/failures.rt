//! Who fails, by records and courses that are written by hand.

use crate::replay::written::Did::{Cut, Fail, FailWaiting, Rest, Send, Start, Take, Wait};
use crate::replay::written::{Kept, Written, expect_order};
use port_model::{Pid, SignalId};
use run_record::Failure;
use sdl_system::{Dest, ProcessId};
use std::alloc::{AllocError, Global};

const P: ProcessId = ProcessId(0);

const Q: ProcessId = ProcessId(1);

const R: ProcessId = ProcessId(2);

const T: ProcessId = ProcessId(3);

const U: ProcessId = ProcessId(4);

const X: SignalId = SignalId(0);

const Y: SignalId = SignalId(1);

const Z: SignalId = SignalId(2);

/// #1 fails by its enabling condition, before it looks for the signal of #2 that is in its port by then.
static UNSEEN: &str = "system S; signal x, y, z;
    process P (1, 1); dcl n Integer := 0; start; output z to R; nextstate w;
    state w; input x; provided 1 / n > 0; nextstate w; endstate; endprocess;
    process Q (1, 1); start; output x to P; output y to R; nextstate w; state w; endstate; endprocess;
    process R (1, 1); start; nextstate w; state w; input y; nextstate w; input z; nextstate w; endstate; endprocess;
    endsystem;";

/// Its state has a continuous signal, too, which isn't asked: the enabling condition fails before.
static UNASKED: &str = "system S; signal x, y, z;
    process P (1, 1); dcl n Integer := 0; start; output z to R; nextstate w;
    state w; input x; provided 1 / n > 0; nextstate w; provided n > 5; nextstate w; endstate; endprocess;
    process Q (1, 1); start; output x to P; output y to R; nextstate w; state w; endstate; endprocess;
    process R (1, 1); start; nextstate w; state w; input y; nextstate w; input z; nextstate w; endstate; endprocess;
    endsystem;";

/// #1 had drawn nothing when it failed.
fn failing(alloc: Global) -> Result<Written, AllocError> {
    let mut run = Written::new(alloc, 0, &[])?;
    run.add(
        P,
        Pid::Null,
        &[
            Start,
            Send(Z, Dest::Process(R), 3),
            Wait,
            FailWaiting(Failure::ZeroDivisor),
        ],
        Kept {
            puts: &[1],
            drawn: &[0, 0],
            versions: &[3, 4],
            senders: &[(3, 2)],
        },
    )?;
    run.add(
        Q,
        Pid::Null,
        &[
            Start,
            Send(X, Dest::Process(P), 1),
            Send(Y, Dest::Process(R), 3),
            Wait,
            Rest,
        ],
        Kept {
            puts: &[],
            drawn: &[0],
            versions: &[3, 3],
            senders: &[(1, 1), (3, 1)],
        },
    )?;
    run.add(
        R,
        Pid::Null,
        &[Start, Wait, Take(Y, 2), Wait, Take(Z, 1), Wait, Rest],
        Kept {
            puts: &[1, 2],
            drawn: &[0, 1, 2],
            versions: &[],
            senders: &[],
        },
    )?;
    Ok(run)
}

/// What #2 sent to #1 is put before #1 fails, since it is sent before y, and z comes behind y. #1 had not looked.
#[test]
fn who_fails_before_a_look_hinders_nobody(rt: HostRuntime) {
    let alloc = rt.alloc();
    let run = failing(alloc).expect(&rt, "a run");
    let order = [1, 2, 2, 2, 2, 3, 3, 3, 3, 1, 1, 1, 3, 3];
    expect_order(&rt, alloc, UNSEEN, "", &run, &order, None);
    expect_order(&rt, alloc, UNASKED, "", &run, &order, None);
}

/// #1 has still something to do where the run is cut, and #2 fails.
static CUT: &str = "system S; signal x;
    process P (1, 1); start; nextstate w; state w; provided true; nextstate w; endstate; endprocess;
    process Q (1, 1); dcl n Integer := 0; start; output x to Q; nextstate w;
    state w; input x; provided 1 / n > 0; nextstate w; provided n > 5; nextstate w; endstate; endprocess;
    endsystem;";

/// #2 had drawn nothing when it failed, though its own signal was in its port.
fn cut(alloc: Global) -> Result<Written, AllocError> {
    let mut run = Written::new(alloc, 0, &[])?;
    run.report.whole = false;
    run.add(
        P,
        Pid::Null,
        &[Start, Wait, Cut],
        Kept {
            puts: &[],
            drawn: &[0],
            versions: &[],
            senders: &[],
        },
    )?;
    run.add(
        Q,
        Pid::Null,
        &[
            Start,
            Send(X, Dest::Process(Q), 2),
            Wait,
            FailWaiting(Failure::ZeroDivisor),
        ],
        Kept {
            puts: &[1],
            drawn: &[0, 0],
            versions: &[2, 3],
            senders: &[(2, 1)],
        },
    )?;
    Ok(run)
}

/// #1 isn't asked whether it rests: it doesn't.
#[test]
fn who_is_cut_need_not_rest(rt: HostRuntime) {
    let alloc = rt.alloc();
    let run = cut(alloc).expect(&rt, "a run");
    expect_order(&rt, alloc, CUT, "", &run, &[1, 1, 2, 2, 2, 2], None);
}

/// #1 fails as it finds nothing, and x of #3 comes behind its look. #2 fails before it looks, and its own signal is in its
/// port by then.
static OWN: &str = "system S; signal x, y, z;
    process P (1, 1); dcl n Integer := 0; start; output y to Q; nextstate w;
    state w; input x; provided n = 0; nextstate w; provided 1 / n > 5; nextstate w; endstate; endprocess;
    process Q (1, 1); dcl n Integer := 0; start; output z to Q; nextstate w;
    state w; input y; provided 1 / n > 0; nextstate w; input z; nextstate w; provided n > 5; nextstate w;
    endstate; endprocess;
    process R (1, 1); start; output x to P; nextstate w; state w; endstate; endprocess;
    endsystem;";

/// #1 sends to #2, which has sent to itself before, and both had drawn nothing when they failed, first #1.
fn own(alloc: Global) -> Result<Written, AllocError> {
    let mut run = Written::new(alloc, 0, &[])?;
    run.add(
        P,
        Pid::Null,
        &[
            Start,
            Send(Y, Dest::Process(Q), 2),
            Wait,
            FailWaiting(Failure::ZeroDivisor),
        ],
        Kept {
            puts: &[1],
            drawn: &[0, 0],
            versions: &[3, 4],
            senders: &[(2, 2)],
        },
    )?;
    run.add(
        Q,
        Pid::Null,
        &[
            Start,
            Send(Z, Dest::Process(Q), 2),
            Wait,
            FailWaiting(Failure::ZeroDivisor),
        ],
        Kept {
            puts: &[1, 2],
            drawn: &[0, 0],
            versions: &[3, 5],
            senders: &[(2, 1)],
        },
    )?;
    run.add(
        R,
        Pid::Null,
        &[Start, Send(X, Dest::Process(P), 1), Wait, Rest],
        Kept {
            puts: &[],
            drawn: &[0],
            versions: &[3],
            senders: &[(1, 1)],
        },
    )?;
    Ok(run)
}

/// #3 waits until #1 has looked, and #2 puts into its own port before it fails.
#[test]
fn who_fails_behind_a_look_hinders_others(rt: HostRuntime) {
    let alloc = rt.alloc();
    let run = own(alloc).expect(&rt, "a run");
    let order = [1, 2, 2, 2, 3, 1, 1, 1, 2, 3, 3];
    expect_order(&rt, alloc, OWN, "", &run, &order, None);
}

/// #1 fails as it finds nothing, and #2 before it looks.
static FIVE: &str = "system S; signal x, y;
    process P (1, 1); dcl n Integer := 0; start; output y to T; nextstate w;
    state w; input x; provided n = 0; nextstate w; provided 1 / n > 5; nextstate w; endstate; endprocess;
    process Q (1, 1); dcl n Integer := 0; start; output y to T; nextstate w;
    state w; input x; provided 1 / n > 0; nextstate w; provided n > 5; nextstate w; endstate; endprocess;
    process R (1, 1); start; output x to Q; output y to T; nextstate w; state w; endstate; endprocess;
    process T (1, 1); start; nextstate w; state w; input y; nextstate w; endstate; endprocess;
    process U (1, 1); start; output x to P; nextstate w; state w; endstate; endprocess;
    endsystem;";

/// #1 sends to #4 behind #2, #2 behind #3, and #3 sends to #2 before it sends to #4. What #5 sends to #1 comes behind the
/// look of #1.
fn five(alloc: Global) -> Result<Written, AllocError> {
    let mut run = Written::new(alloc, 0, &[])?;
    let failing = [
        Start,
        Send(Y, Dest::Process(T), 4),
        Wait,
        FailWaiting(Failure::ZeroDivisor),
    ];
    run.add(
        P,
        Pid::Null,
        &failing,
        Kept {
            puts: &[1],
            drawn: &[0, 0],
            versions: &[5, 7],
            senders: &[(4, 3)],
        },
    )?;
    run.add(
        Q,
        Pid::Null,
        &failing,
        Kept {
            puts: &[1],
            drawn: &[0, 0],
            versions: &[5, 6],
            senders: &[(4, 2)],
        },
    )?;
    add_senders_of_five(&mut run)?;
    Ok(run)
}

/// #3 to #5.
fn add_senders_of_five(run: &mut Written) -> Result<(), AllocError> {
    run.add(
        R,
        Pid::Null,
        &[
            Start,
            Send(X, Dest::Process(Q), 2),
            Send(Y, Dest::Process(T), 4),
            Wait,
            Rest,
        ],
        Kept {
            puts: &[],
            drawn: &[0],
            versions: &[5, 5],
            senders: &[(2, 1), (4, 1)],
        },
    )?;
    run.add(
        T,
        Pid::Null,
        &[
            Start,
            Wait,
            Take(Y, 3),
            Wait,
            Take(Y, 2),
            Wait,
            Take(Y, 1),
            Wait,
            Rest,
        ],
        Kept {
            puts: &[1, 2, 3],
            drawn: &[0, 1, 2, 3],
            versions: &[],
            senders: &[],
        },
    )?;
    run.add(
        U,
        Pid::Null,
        &[Start, Send(X, Dest::Process(P), 1), Wait, Rest],
        Kept {
            puts: &[],
            drawn: &[0],
            versions: &[5],
            senders: &[(1, 1)],
        },
    )
}

/// #1 and #2 fail in the middle of all, where others wait for both: which of them had looked isn't guessed.
#[test]
fn who_had_looked_follows_from_the_records(rt: HostRuntime) {
    let alloc = rt.alloc();
    let run = five(alloc).expect(&rt, "a run");
    let order = [
        1, 2, 3, 3, 3, 3, 4, 4, 4, 4, 5, 2, 2, 2, 4, 4, 1, 1, 1, 4, 4, 5, 5,
    ];
    expect_order(&rt, alloc, FIVE, "", &run, &order, None);
}

/// A run of one instance, which found no memory for its next state.
fn without_memory(alloc: Global) -> Result<Written, AllocError> {
    let mut run = Written::new(alloc, 0, &[])?;
    run.add(
        P,
        Pid::Null,
        &[Start, Fail(Failure::Memory)],
        Kept {
            puts: &[],
            drawn: &[0],
            versions: &[2],
            senders: &[],
        },
    )?;
    Ok(run)
}

/// What is executed again finds memory, so it is another run, of which no event is left.
#[test]
fn another_run_is_stuck(rt: HostRuntime) {
    let alloc = rt.alloc();
    let run = without_memory(alloc).expect(&rt, "a run");
    let text =
        "system S; process P (1, 1); start; nextstate w; state w; endstate; endprocess; endsystem;";
    expect_order(&rt, alloc, text, "", &run, &[1, 1], Some(0));
}
