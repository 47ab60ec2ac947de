//! The cases, each of another thing that happens in a run.

/// A specification with a script.
pub struct Case {
    /// What happens.
    pub name: &'static str,
    pub specification: &'static str,
    pub script: &'static str,
    /// Whether one instance at a time can act, so that the run has one text wherever it is parted.
    pub one_at_a_time: bool,
}

pub static CASES: [Case; 12] = [
    Case {
        name: "two send to each other for ever",
        specification: "system S; signal x, y;
            process A; start; output x; nextstate s; state s; input y; output x; nextstate -; endprocess;
            process B; start; nextstate s; state s; input x; output y; nextstate -; endprocess; endsystem;",
        script: "",
        one_at_a_time: true,
    },
    Case {
        name: "three pass on two tokens for ever",
        specification: "system S; signal p, q, r;
            process P; start; output q; output q; nextstate s; state s; input p; output q; nextstate -; endprocess;
            process Q; start; nextstate s; state s; input q; output r; nextstate -; endprocess;
            process R; start; nextstate s; state s; input r; output p; nextstate -; endprocess; endsystem;",
        script: "",
        one_at_a_time: false,
    },
    Case {
        name: "the later of two sends to the earlier",
        specification: "system S; signal t;
            process P; start; create A; create B(offspring); nextstate s; state s; endprocess;
            process A (0); start; nextstate s; state s; input t; nextstate -; endprocess;
            process B (0); fpar q Pid; start; output t to q; stop; endprocess; endsystem;",
        script: "",
        one_at_a_time: false,
    },
    Case {
        name: "one after the other creates the next, and stops",
        specification: "system S; signal token(Integer);
            process P; dcl n Integer; start; create N(3, self); output token(0) to offspring; nextstate s;
            state s; input token(n); stop; endprocess;
            process N (0, 3); fpar k Integer, root Pid; dcl n Integer; start; nextstate s; state s; input token(n);
            decision k; (1): output token(n + 1) to root;
            else: create N(k - 1, root); output token(n + 1) to offspring; enddecision; stop; endprocess; endsystem;",
        script: "",
        one_at_a_time: true,
    },
    Case {
        name: "as many live as may",
        specification: "system S; signal a;
            process P; start; create Q; create Q; create Q; nextstate s; state s; input a; nextstate -; endprocess;
            process Q (1, 2); start; output a; nextstate s; state s; endprocess; endsystem;",
        script: "",
        one_at_a_time: false,
    },
    Case {
        name: "the script sends, also to one that has stopped",
        specification: "system S; signal inc, get, quit, val(Integer);
            process P; dcl n Integer := 0; start; nextstate idle; state idle; input inc; task n := n + 1; nextstate -;
            input get; output val(n); nextstate -; input quit; stop; endprocess; endsystem;",
        script: "0 inc\n3 get\n4 quit\n4 inc",
        one_at_a_time: true,
    },
    Case {
        name: "the script sends to a Pid before an instance has it, and after",
        specification: "system S; signal tell(Pid), make, t;
            process P; dcl p Pid; start; nextstate s; state s; input tell(p); output t to p; nextstate -;
            input make; create Q; nextstate -; endprocess;
            process Q (0); start; nextstate q; state q; input t; nextstate -; endprocess; endsystem;",
        script: "0 tell(#2)\n1 t to #2\n2 make\n3 tell(#2)\n4 t to #2",
        one_at_a_time: true,
    },
    Case {
        name: "a signal goes to the first that lives, or to nobody",
        specification: "system S; signal go, a;
            process P; start; nextstate s; state s; input go; output a to Q; nextstate -; endprocess;
            process Q (2); start; nextstate s; state s; input a; stop; endprocess; endsystem;",
        script: "0 go\n1 go\n2 go\n2 a to #3",
        one_at_a_time: false,
    },
    Case {
        name: "two fail, and get signals still",
        specification: "system S; signal a, b, c;
            process P; dcl z Integer := 0; start; nextstate s; state s; input a; task z := 1 / z; nextstate -;
            endprocess;
            process Q; start; output a; output a; nextstate s; state s; input b; output a; output c; nextstate -;
            endprocess;
            process R; dcl z Integer := 0; start; nextstate s; state s; input c; provided 1 / z = 1; nextstate -;
            endprocess; endsystem;",
        script: "1 b\n2 b\n3 a to #1\n3 c to #3",
        one_at_a_time: false,
    },
    Case {
        name: "signals are saved, go first, wait for a condition, and are discarded",
        specification: "system S; signal a, b, c;
            process P; dcl ok Boolean := false, n Integer := 0; start; nextstate s;
            state s; priority input c; nextstate -; input b; task ok := true; nextstate t; save a; endstate;
            state t; input a; provided ok; nextstate -; provided n < 2; task n := n + 1; nextstate -; endprocess;
            endsystem;",
        script: "0 a\n0 b\n0 c\n1 c\n1 b\n2 a",
        one_at_a_time: true,
    },
    Case {
        name: "timers are due at once, are set again, or are never due",
        specification: "system S;
            process P; timer T, U; start; set(now - 1, T); set(now + 9, U); nextstate s;
            state s; input T; set(now + 3, T); nextstate -; input U; nextstate -; endprocess; endsystem;",
        script: "7",
        one_at_a_time: true,
    },
    Case {
        name: "two timers and two lines are due together, and a timer is reset",
        specification: "system S; signal a, b;
            process P; timer T; start; set(now + 3, T); nextstate s;
            state s; input T; output b; nextstate -; input a; nextstate -; endprocess;
            process Q; timer U; start; set(now + 3, U); nextstate s;
            state s; input U; set(now + 2, U); nextstate -; input b; reset(U); nextstate -; endprocess; endsystem;",
        script: "3 a\n3 a\n9",
        one_at_a_time: false,
    },
];
