//! Labels, joins, connections, and how transitions end.

use crate::case::{CASE, Case};

pub static CASES: [Case<'static>; 4] = [
    Case {
        name: "flow: labels and joins",
        process: "dcl n Integer := 0; start; again: task n := n + 1; decision n; (1:2): decision n = 1;
        (true): task n := n + 0; (false): join out; enddecision; join again; else: stop; enddecision;
        out: output v(n); nextstate s; state s;",
        wanted: "
0 start
  task n := 1
  task n := 1
  task n := 2
  output v(2) to env
  nextstate s
rest s
",
        ..CASE
    },
    Case {
        name: "flow: a connection",
        process: "dcl n Integer; start; nextstate s; state s; input a; join l; state t; input a; join l;
        input b; nextstate s; connection l: task n := 1; nextstate t; endconnection;",
        script: "0 a\n0 a\n0 b",
        wanted: "
0 start
  nextstate s
0 input a from env
  task n := 1
  nextstate t
0 input a from env
  task n := 1
  nextstate t
0 input b from env
  nextstate s
rest s
",
        ..CASE
    },
    Case {
        name: "flow: back to where it began",
        process: "start; nextstate t; state s, t; input a; nextstate -; state t; input b; nextstate s;
        state *(t); input c; nextstate -;",
        script: "0 a\n0 c\n0 b\n0 a\n0 c",
        wanted: "
0 start
  nextstate t
0 input a from env
  nextstate t
0 discard c from env
0 input b from env
  nextstate s
0 input a from env
  nextstate s
0 input c from env
  nextstate s
rest s
",
        ..CASE
    },
    Case {
        name: "flow: a stop ends it",
        process: "timer T; start; set(now + 1, T); nextstate s; state s; input a; stop; input T; nextstate -;",
        script: "0 a\n0 a\n3 a",
        wanted: "
0 start
  set T 1
  nextstate s
0 input a from env
  stop
",
        ..CASE
    },
];
