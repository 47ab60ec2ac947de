//! Enabling conditions.

use crate::case::{CASE, Case};

pub static CASES: [Case<'static>; 5] = [
    Case {
        name: "conditions: a signal waits while its condition is false",
        process: "dcl ok Boolean := false; start; nextstate s; state s; input a; provided ok; nextstate -;
        input b; task ok := not ok; nextstate -;",
        script: "0 a\n1 b\n2 a\n3 b\n3 a",
        wanted: "
0 start
  nextstate s
1 input b from env
  task ok := true
  nextstate s
1 input a from env
  nextstate s
2 input a from env
  nextstate s
3 input b from env
  task ok := false
  nextstate s
rest s
",
        ..CASE
    },
    Case {
        name: "conditions: the first condition that fails",
        process: "dcl m Integer, z Integer := 0; start; nextstate s; state s; input a; provided true; nextstate -;
        input b; provided 1 / z = 1; nextstate -; input c; provided m = 1; nextstate -;",
        wanted: "\n0 start\n  nextstate s\n0 failed ZeroDivisor\n",
        ..CASE
    },
    Case {
        name: "conditions: one of two conditions is true",
        process: "dcl n Integer := 0; start; nextstate s;
        state s; input a, c; provided n = 1; stop; input b; provided n = 0; task n := 1; nextstate -;",
        script: "0 a\n0 b\n0 b",
        wanted: "
0 start
  nextstate s
0 input b from env
  task n := 1
  nextstate s
0 input a from env
  stop
",
        ..CASE
    },
    // The signals of an asterisk wait for its condition; the others don't.
    Case {
        name: "conditions: an asterisk with a condition",
        process: "signalset b, c; dcl ok Boolean := false; start; nextstate s;
        state s; input a; task ok := true; nextstate -; input *; provided ok; nextstate -; save v;",
        script: "0 b\n0 v(1)\n0 c\n1 a",
        wanted: "
0 start
  nextstate s
1 input a from env
  task ok := true
  nextstate s
1 input b from env
  nextstate s
1 input c from env
  nextstate s
rest s
",
        ..CASE
    },
    Case {
        name: "conditions: a priority input beside conditions",
        process: "dcl ok Boolean := false; start; nextstate s; state s; input a; provided ok; stop;
        priority input b; task ok := true; nextstate -; input c; nextstate -;",
        script: "0 a\n0 c\n0 b",
        wanted: "
0 start
  nextstate s
0 priority b from env
  task ok := true
  nextstate s
0 input a from env
  stop
",
        ..CASE
    },
];
