//! Transitions that fail, with what they did before.

use crate::case::{CASE, Case};

pub static CASES: [Case<'static>; 10] = [
    Case {
        name: "failures: no answer",
        process: "start; decision 3; (1): stop; (> 5): stop; enddecision; state s;",
        wanted: "\n0 start\n  failed NoAnswer\n",
        ..CASE
    },
    Case {
        name: "failures: an endless join",
        process: "start; l: join l;",
        wanted: "\n0 start\n  failed TooLong\n",
        ..CASE
    },
    Case {
        name: "failures: a send without memory",
        process: "start; output a, b, c; nextstate s; state s;",
        wanted: "\n0 start\n  output a to env\n  failed Memory\n",
        done: Some("a from #1 to Env\n"),
        room: 1,
        ..CASE
    },
    // What came before in a list stays done.
    Case {
        name: "failures: a list fails in the midst",
        process: "dcl m Integer; start; output a, v(m), b; nextstate s; state s;",
        wanted: "\n0 start\n  output a to env\n  failed Undefined\n",
        done: Some("a from #1 to Env\n"),
        ..CASE
    },
    Case {
        name: "failures: a number past 64 bits",
        process: "dcl n Integer := 9223372036854775807; start; task n := n, n := n + 1; nextstate s; state s;",
        wanted: "\n0 start\n  task n := 9223372036854775807\n  failed Overflow\n",
        ..CASE
    },
    Case {
        name: "failures: the negative of the least",
        process: "dcl n Integer := -9223372036854775807 - 1; start; task n := -n; nextstate s; state s;",
        wanted: "\n0 start\n  failed Overflow\n",
        ..CASE
    },
    Case {
        name: "failures: a division by zero",
        process: "dcl z Integer := 0; start; task z := 1 mod z; nextstate s; state s;",
        wanted: "\n0 start\n  failed ZeroDivisor\n",
        ..CASE
    },
    Case {
        name: "failures: the left operand fails first",
        process: "dcl z Integer := 0, m Integer; start; task z := m + 1 / z; nextstate s; state s;",
        wanted: "\n0 start\n  failed Undefined\n",
        ..CASE
    },
    Case {
        name: "failures: the left division fails first",
        process: "dcl z Integer := 0, m Integer; start; task z := 1 / z + m; nextstate s; state s;",
        wanted: "\n0 start\n  failed ZeroDivisor\n",
        ..CASE
    },
    Case {
        name: "failures: a negative natural",
        process: "dcl k Natural; start; task k := 1 - 2; nextstate s; state s;",
        wanted: "\n0 start\n  failed NotNatural\n",
        ..CASE
    },
];
