//! Creates.

use crate::case::{CASE, Case};

/// A process of which one instance may live, with two parameters.
const Q: &str = "process Q (0, 1); fpar n Natural, p Pid; start; stop; endprocess;";

pub static CASES: [Case<'static>; 3] = [
    Case {
        name: "creates: a number and then null",
        process: "dcl p Pid; start; create Q(1 + 2, self); task p := offspring; create Q(4, p); task p := offspring;
            nextstate s; state s;",
        others: Q,
        wanted: "
0 start
  create Q #2
  task p := #2
  create Q null
  task p := null
  nextstate s
rest s
",
        done: Some("#2(3,#1) of 1 by #1\n"),
        ..CASE
    },
    Case {
        name: "creates: a negative value of a natural",
        process: "dcl n Integer := -1; start; create Q(n, self); nextstate s; state s;",
        others: Q,
        wanted: "\n0 start\n  failed NotNatural\n",
        ..CASE
    },
    // The values are evaluated although no more instances may live.
    Case {
        name: "creates: values fail before the maximum",
        process: "dcl p Pid; start; create Q(1, null); create Q(2, p); nextstate s; state s;",
        others: Q,
        wanted: "\n0 start\n  create Q #2\n  failed Undefined\n",
        done: Some("#2(1,null) of 1 by #1\n"),
        ..CASE
    },
];
