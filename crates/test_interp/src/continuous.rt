//! Continuous signals.

use crate::case::{CASE, Case};

pub static CASES: [Case<'static>; 5] = [
    Case {
        name: "continuous: by their priorities",
        process: "dcl n Integer := 0; start; nextstate s; state s; provided n < 2; task n := n + 1; nextstate -;
        provided n = 3 or n = 1; priority 2; task n := 4; nextstate -;
        provided n = 1; priority 1; task n := 3; nextstate -;",
        wanted: "
0 start
  nextstate s
0 provided 1
  task n := 1
  nextstate s
0 provided 3
  task n := 3
  nextstate s
0 provided 2
  task n := 4
  nextstate s
rest s
",
        ..CASE
    },
    Case {
        name: "continuous: signals come first",
        process: "dcl p Pid, done Boolean := false; start; nextstate s; state s; input a, b; nextstate -; save c;
        provided not done; task done := true, p := sender; nextstate -;",
        script: "0 c\n0 a\n0 b",
        wanted: "
0 start
  nextstate s
0 input a from env
  nextstate s
0 input b from env
  nextstate s
0 provided 1
  task done := true
  task p := #1
  nextstate s
rest s
",
        ..CASE
    },
    Case {
        name: "continuous: one that fails",
        process: "dcl z Integer := 0; start; nextstate s; state s; input a; nextstate -;
        provided z = 0; priority 2; stop; provided 1 / z = 1; priority 1; nextstate -;",
        script: "0 a",
        wanted: "
0 start
  nextstate s
0 input a from env
  nextstate s
0 failed ZeroDivisor
",
        ..CASE
    },
    Case {
        name: "continuous: one behind a true one is not evaluated",
        process: "dcl z Integer := 0; start; nextstate s; state s; provided 1 / z = 1; priority 2; nextstate -;
        provided z = 0; priority 1; stop;",
        wanted: "\n0 start\n  nextstate s\n0 provided 2\n  stop\n",
        ..CASE
    },
    Case {
        name: "continuous: while a timer is active",
        process: "timer T; start; set(now + 4, T); nextstate s; state s; save T; provided active(T); reset(T);
        nextstate s;",
        script: "9",
        wanted: "
0 start
  set T 4
  nextstate s
0 provided 1
  reset T
  nextstate s
rest s
",
        ..CASE
    },
];
