//! Outputs: whom they reach, and in which order their parts are evaluated.

use crate::case::{CASE, Case};

pub static CASES: [Case<'static>; 6] = [
    Case {
        name: "outputs: a signal along a path",
        process: "dcl n Integer := 4; start; output a, v(n + 1), pair(2, n = 4), at(now + 2), few(n);
            nextstate s; state s;",
        wanted: "
0 start
  output a to env
  output v(5) to env
  output pair(2,true) to env
  output at(2) to env
  output few(4) to env
  nextstate s
rest s
",
        done: Some(
            "a from #1 to Env
v(5) from #1 to Env
pair(2,true) from #1 to Env
at(2) from #1 to Env
few(4) from #1 to Env
",
        ),
        ..CASE
    },
    Case {
        name: "outputs: a signal to itself",
        process: "dcl n Integer; start; output v(1), v(2) to self; nextstate s;
        state s; input v(n); nextstate -;",
        wanted: "
0 start
  output v(1) to #1
  output v(2) to #1
  nextstate s
0 input v(1) from #1
  nextstate s
0 input v(2) from #1
  nextstate s
rest s
",
        ..CASE
    },
    Case {
        name: "outputs: a signal to a pid",
        process: "start; output a to parent; create Q; output a to offspring; nextstate s;
            state s; input b; output a to sender; nextstate -;",
        others: "process Q (0, 1); start; nextstate s; state s; input a; nextstate -; endprocess;",
        script: "3 b",
        wanted: "
0 start
  output a to null
  create Q #2
  output a to #2
  nextstate s
3 input b from env
  output a to env
  nextstate s
rest s
",
        done: Some(
            "a from #1 to Null\n#2 of 1 by #1\na from #1 to Instance(2)\na from #1 to Env\n",
        ),
        ..CASE
    },
    Case {
        name: "outputs: a signal to a process",
        process: "start; output a to Q; create Q; output a to Q; nextstate s; state s;",
        others: "process Q (0, 1); start; nextstate s; state s; input a; nextstate -; endprocess;",
        wanted: "
0 start
  output a to nobody
  create Q #2
  output a to #2
  nextstate s
rest s
",
        done: Some("a from #1 to Nobody\n#2 of 1 by #1\na from #1 to Instance(2)\n"),
        ..CASE
    },
    Case {
        name: "outputs: the destination fails before the values",
        process: "dcl p Pid, z Integer := 0; start; output v(1 / z) to p; nextstate s; state s;",
        wanted: "\n0 start\n  failed Undefined\n",
        ..CASE
    },
    Case {
        name: "outputs: a negative value of a natural",
        process: "dcl n Integer := -1; start; output few(n); nextstate s; state s;",
        wanted: "\n0 start\n  failed NotNatural\n",
        ..CASE
    },
];
