//! Inputs, priority inputs, saves and discards.

use crate::case::{CASE, Case};

pub static CASES: [Case<'static>; 9] = [
    Case {
        name: "inputs: values go to variables",
        process: "dcl n Integer := 0, f Boolean := false; start; nextstate s; state s; input pair(, f), v(n), a;
            output pair(n, f); nextstate -; input few; nextstate -;",
        script: "1 pair(5, true)\n2 v(-7)\n2 few(3)\n3 a",
        wanted: "
0 start
  nextstate s
1 input pair(5,true) from env
  output pair(0,true) to env
  nextstate s
2 input v(-7) from env
  output pair(-7,true) to env
  nextstate s
2 input few(3) from env
  nextstate s
3 input a from env
  output pair(-7,true) to env
  nextstate s
rest s
",
        done: Some(
            "pair(0,true) from #1 to Env\npair(-7,true) from #1 to Env\npair(-7,true) from #1 to Env\n",
        ),
        ..CASE
    },
    Case {
        name: "inputs: a negative value for a natural",
        process: "dcl k Natural; start; nextstate s; state s; input v(k); nextstate -;",
        script: "1 v(4)\n1 v(-4)\n1 v(4)",
        wanted: "
0 start
  nextstate s
1 input v(4) from env
  nextstate s
1 input v(-4) from env
  failed NotNatural
",
        ..CASE
    },
    Case {
        name: "inputs: the sender of a signal",
        process: "dcl p Pid; start; output a to self; nextstate s;
        state s; input a; task p := sender; nextstate -; input b; task p := sender; output a to self; nextstate -;",
        script: "1 b",
        wanted: "
0 start
  output a to #1
  nextstate s
0 input a from #1
  task p := #1
  nextstate s
1 input b from env
  task p := env
  output a to #1
  nextstate s
1 input a from #1
  task p := #1
  nextstate s
rest s
",
        ..CASE
    },
    // An asterisk stands for the signals of the valid input set that the state doesn't name.
    Case {
        name: "inputs: an asterisk",
        process: "signalset b, c; dcl n Integer := 0; start; nextstate s;
        state s; input a; nextstate -; input *; task n := n + 1; nextstate -;",
        script: "0 b\n0 a\n0 c",
        wanted: "
0 start
  nextstate s
0 input b from env
  task n := 1
  nextstate s
0 input a from env
  nextstate s
0 input c from env
  task n := 2
  nextstate s
rest s
",
        ..CASE
    },
    Case {
        name: "inputs: saved signals keep their order",
        process: "start; nextstate s; state s; input c; nextstate t; save a, b; state t; input a, b; nextstate -;",
        script: "0 a\n0 b\n0 c",
        wanted: "
0 start
  nextstate s
0 input c from env
  nextstate t
0 input a from env
  nextstate t
0 input b from env
  nextstate t
rest t
",
        ..CASE
    },
    Case {
        name: "inputs: all others are saved",
        process: "signalset a, b, v; start; nextstate s; state s; input c; nextstate t; save *;
        state t; input v; nextstate -; input b; stop;",
        script: "0 a\n1 v(1)\n1 b\n2 c",
        wanted: "
0 start
  nextstate s
2 input c from env
  nextstate t
2 discard a from env
2 input v(1) from env
  nextstate t
2 input b from env
  stop
",
        ..CASE
    },
    Case {
        name: "inputs: priority comes first",
        process: "dcl n Integer; start; nextstate s;
        state s; input a, b; nextstate -; priority input v(n); output v(n + 1); nextstate -;",
        script: "0 a\n0 b\n0 v(3)",
        wanted: "
0 start
  nextstate s
0 priority v(3) from env
  output v(4) to env
  nextstate s
0 input a from env
  nextstate s
0 input b from env
  nextstate s
rest s
",
        ..CASE
    },
    Case {
        name: "inputs: a discard sets the sender",
        process: "signalset b; dcl p Pid; start; nextstate s;
        state s; input a; task p := sender; nextstate -; provided sender /= null and sender /= self; task p := sender;
        nextstate t; state t;",
        script: "4 b",
        wanted: "
0 start
  nextstate s
4 discard b from env
4 provided 1
  task p := #1
  nextstate t
rest t
",
        ..CASE
    },
    Case {
        name: "inputs: a discard with values",
        process: "start; nextstate s; state s; input a; nextstate t; state t; input v; stop;",
        script: "1 v(8)\n1 a\n2 v(9)",
        wanted: "
0 start
  nextstate s
1 discard v(8) from env
1 input a from env
  nextstate t
2 input v(9) from env
  stop
",
        ..CASE
    },
];
