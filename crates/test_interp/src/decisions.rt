//! Decisions.

use crate::case::{CASE, Case};

pub static CASES: [Case<'static>; 5] = [
    Case {
        name: "decisions: values and ranges",
        process: "dcl n Integer, w Integer; start; nextstate s; state s; input v(n); decision n;
        (1:3, 7): task w := 1; (> 9): task w := 2; (/= 4): task w := 3; else: task w := 4; enddecision; nextstate -;",
        script: "0 v(1)\n0 v(3)\n0 v(7)\n0 v(10)\n0 v(9)\n0 v(4)",
        wanted: "
0 start
  nextstate s
0 input v(1) from env
  task w := 1
  nextstate s
0 input v(3) from env
  task w := 1
  nextstate s
0 input v(7) from env
  task w := 1
  nextstate s
0 input v(10) from env
  task w := 2
  nextstate s
0 input v(9) from env
  task w := 3
  nextstate s
0 input v(4) from env
  task w := 4
  nextstate s
rest s
",
        ..CASE
    },
    Case {
        name: "decisions: the first part that is met",
        process: "dcl n Integer := 3; start; decision n; (1:5): task n := 10; (3): task n := 20; enddecision;
        nextstate s; state s;",
        wanted: "\n0 start\n  task n := 10\n  nextstate s\nrest s\n",
        ..CASE
    },
    Case {
        name: "decisions: goes on behind its own end",
        process: "dcl n, m, w Integer; start; nextstate s; state s; input v(n); decision n;
        (1): decision n = 1; (true): (false): stop; enddecision; task w := 1;
        (2): stop; else: enddecision; task m := 2; nextstate -;",
        script: "0 v(1)\n0 v(3)\n0 v(2)",
        wanted: "
0 start
  nextstate s
0 input v(1) from env
  task w := 1
  task m := 2
  nextstate s
0 input v(3) from env
  task m := 2
  nextstate s
0 input v(2) from env
  stop
",
        ..CASE
    },
    Case {
        name: "decisions: a question about pids",
        process: "dcl n Integer; start; decision sender; (null): task n := 1; else: task n := 2; enddecision;
        nextstate s; state s;",
        wanted: "\n0 start\n  task n := 1\n  nextstate s\nrest s\n",
        ..CASE
    },
    Case {
        name: "decisions: a question that fails",
        process: "dcl n Integer; start; decision n; (1): else: enddecision; nextstate s; state s;",
        wanted: "\n0 start\n  failed Undefined\n",
        ..CASE
    },
];
