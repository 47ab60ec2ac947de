//! Tasks, and what their expressions come to.

use crate::case::{CASE, Case};

pub static CASES: [Case<'static>; 5] = [
    Case {
        name: "tasks: a list is done in order",
        process: "dcl n, m Integer; start; task n := 2, m := n * n - 1; nextstate s; state s;",
        wanted: "
0 start
  task n := 2
  task m := 3
  nextstate s
rest s
",
        ..CASE
    },
    Case {
        name: "tasks: values take the sort of their variable",
        process: "dcl b Boolean, p Pid, t Time, d Duration, n Natural; start;
        task b := true, p := self, t := now + 3, d := 2 - 5, n := 7; nextstate s; state s;",
        wanted: "
0 start
  task b := true
  task p := #1
  task t := 3
  task d := -3
  task n := 7
  nextstate s
rest s
",
        ..CASE
    },
    Case {
        name: "tasks: operators on numbers",
        process: "dcl n Integer, m Integer := 7; start;
        task n := -m / 2, n := -m rem 2, n := -m mod 2, n := m mod -2, n := 2 - 3 - m, n := 2 + 3 * m;
        nextstate s; state s;",
        wanted: "
0 start
  task n := -3
  task n := -1
  task n := 1
  task n := 1
  task n := -8
  task n := 23
  nextstate s
rest s
",
        ..CASE
    },
    Case {
        name: "tasks: operators on truths",
        process: "dcl b Boolean, f Boolean := false; start;
        task b := true xor not f, b := not f => f, b := f => true, b := 1 < 2 and 2 <= 1, b := null = self,
        b := 3 /= 4, b := f or 2 >= 2; nextstate s; state s;",
        wanted: "
0 start
  task b := false
  task b := false
  task b := true
  task b := false
  task b := false
  task b := true
  task b := true
  nextstate s
rest s
",
        ..CASE
    },
    Case {
        name: "tasks: four pids",
        process: "dcl p Pid; start; task p := self, p := parent, p := offspring, p := sender; nextstate s;
        state s; input a; task p := sender; nextstate -;",
        script: "2 a",
        wanted: "
0 start
  task p := #1
  task p := null
  task p := null
  task p := null
  nextstate s
2 input a from env
  task p := env
  nextstate s
rest s
",
        ..CASE
    },
];
