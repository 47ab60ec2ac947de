//! Timers: sets, resets, what is active, and when a timer's signal comes.

use crate::case::{CASE, Case};

pub static CASES: [Case<'static>; 8] = [
    Case {
        name: "timers: a time in the past",
        process: "timer T, U; start; set(now - 1, T); set(now + 3, U), (now + 6, U); nextstate s;
        state s; input T; nextstate -; input U; nextstate -;",
        script: "10",
        wanted: "
0 start
  set T 0
  set U 3
  set U 6
  nextstate s
0 input T from #1
  nextstate s
6 input U from #1
  nextstate s
rest s
",
        ..CASE
    },
    Case {
        name: "timers: a default duration",
        process: "timer T := 4; start; set(T); nextstate s;
        state s; input a; set(T); nextstate -; input T; nextstate -;",
        script: "3 a\n8",
        wanted: "
0 start
  set T 4
  nextstate s
3 input a from env
  set T 7
  nextstate s
7 input T from #1
  nextstate s
rest s
",
        ..CASE
    },
    Case {
        name: "timers: timers with values",
        process: "timer T(Integer) := 4; dcl n Integer := 0; start; set(T(1)), (T(2)), (T(3)); reset(T(3));
        set(now + 6, T(n + 1)); nextstate s; state s; input T(n); output v(n); nextstate -;",
        script: "9",
        wanted: "
0 start
  set T(1) 4
  set T(2) 4
  set T(3) 4
  reset T(3)
  set T(1) 6
  nextstate s
4 input T(2) from #1
  output v(2) to env
  nextstate s
6 input T(1) from #1
  output v(1) to env
  nextstate s
rest s
",
        ..CASE
    },
    Case {
        name: "timers: a timer is active while its signal waits",
        process: "timer T; dcl b Boolean; start; task b := active(T); set(now + 5, T); nextstate s;
        state s; save T; input a; task b := active(T); nextstate t;
        state t; input T; task b := active(T); nextstate -;",
        script: "7 a",
        wanted: "
0 start
  task b := false
  set T 5
  nextstate s
7 input a from env
  task b := true
  nextstate t
7 input T from #1
  task b := false
  nextstate t
rest t
",
        ..CASE
    },
    Case {
        name: "timers: a reset removes what waits",
        process: "timer T, U; dcl b Boolean; start; set(now, T), (now + 9, U); nextstate s;
        state s; save T; input a; reset(T, U); task b := active(T); nextstate t; state t; input T, U; stop;",
        script: "1 a\n20",
        wanted: "
0 start
  set T 0
  set U 9
  nextstate s
1 input a from env
  reset T
  reset U
  task b := false
  nextstate t
rest t
",
        ..CASE
    },
    // The signal of the earlier set is gone.
    Case {
        name: "timers: a set removes what waits",
        process: "timer T; start; set(now, T); nextstate s;
        state s; save T; input a; set(now + 3, T); nextstate t; state t; input T; nextstate -;",
        script: "1 a\n9",
        wanted: "
0 start
  set T 0
  nextstate s
1 input a from env
  set T 4
  nextstate t
4 input T from #1
  nextstate t
rest t
",
        ..CASE
    },
    Case {
        name: "timers: the sender of a timer",
        process: "timer T; dcl p Pid; start; set(now + 2, T); nextstate s; state s; input T; task p := sender; stop;",
        script: "5",
        wanted: "
0 start
  set T 2
  nextstate s
2 input T from #1
  task p := #1
  stop
",
        ..CASE
    },
    Case {
        name: "timers: the time fails before the values",
        process: "timer T(Integer); dcl t Time, z Integer := 0; start; set(t, T(1 / z)); nextstate s; state s;",
        wanted: "\n0 start\n  failed Undefined\n",
        ..CASE
    },
];
