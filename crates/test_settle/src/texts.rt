//! The rows: what is run, and the one report of it.

/// A specification with a script, and the report of the run.
pub struct Row {
    pub specification: &'static str,
    pub script: &'static str,
    pub report: &'static str,
}

/// A chain of nodes, each created by the one before, with a token that goes through all of them.
pub static CHAIN: Row = Row {
    specification: "system R; signal token(Integer);
        process Root (1, 1); dcl n Integer; start; create Node(19, self); output token(0) to offspring; nextstate w;
        state w; input token(n); stop; endprocess;
        process Node (0, 19); fpar k Integer, root Pid; dcl n Integer; start; nextstate i; state i; input token(n);
        decision k; (1): output token(n + 1) to root;
        else: create Node(k - 1, root); output token(n + 1) to offspring; enddecision; stop; endstate; endprocess;
        endsystem;",
    script: "",
    report: "\
instance #1 Root parent null
0 start
  create Node #2
  output token(0) to #2
  nextstate w
0 input token(19) from #20
  stop
instance #2 Node parent #1
0 start
  nextstate i
0 input token(0) from #1
  create Node #3
  output token(1) to #3
  stop
instance #3 Node parent #2
0 start
  nextstate i
0 input token(1) from #2
  create Node #4
  output token(2) to #4
  stop
instance #4 Node parent #3
0 start
  nextstate i
0 input token(2) from #3
  create Node #5
  output token(3) to #5
  stop
instance #5 Node parent #4
0 start
  nextstate i
0 input token(3) from #4
  create Node #6
  output token(4) to #6
  stop
instance #6 Node parent #5
0 start
  nextstate i
0 input token(4) from #5
  create Node #7
  output token(5) to #7
  stop
instance #7 Node parent #6
0 start
  nextstate i
0 input token(5) from #6
  create Node #8
  output token(6) to #8
  stop
instance #8 Node parent #7
0 start
  nextstate i
0 input token(6) from #7
  create Node #9
  output token(7) to #9
  stop
instance #9 Node parent #8
0 start
  nextstate i
0 input token(7) from #8
  create Node #10
  output token(8) to #10
  stop
instance #10 Node parent #9
0 start
  nextstate i
0 input token(8) from #9
  create Node #11
  output token(9) to #11
  stop
instance #11 Node parent #10
0 start
  nextstate i
0 input token(9) from #10
  create Node #12
  output token(10) to #12
  stop
instance #12 Node parent #11
0 start
  nextstate i
0 input token(10) from #11
  create Node #13
  output token(11) to #13
  stop
instance #13 Node parent #12
0 start
  nextstate i
0 input token(11) from #12
  create Node #14
  output token(12) to #14
  stop
instance #14 Node parent #13
0 start
  nextstate i
0 input token(12) from #13
  create Node #15
  output token(13) to #15
  stop
instance #15 Node parent #14
0 start
  nextstate i
0 input token(13) from #14
  create Node #16
  output token(14) to #16
  stop
instance #16 Node parent #15
0 start
  nextstate i
0 input token(14) from #15
  create Node #17
  output token(15) to #17
  stop
instance #17 Node parent #16
0 start
  nextstate i
0 input token(15) from #16
  create Node #18
  output token(16) to #18
  stop
instance #18 Node parent #17
0 start
  nextstate i
0 input token(16) from #17
  create Node #19
  output token(17) to #19
  stop
instance #19 Node parent #18
0 start
  nextstate i
0 input token(17) from #18
  create Node #20
  output token(18) to #20
  stop
instance #20 Node parent #19
0 start
  nextstate i
0 input token(18) from #19
  output token(19) to #1
  stop
end 0 whole
",
};

/// Two that are created by one, of which the later sends to the earlier.
pub static SIBLINGS: Row = Row {
    specification: "system S; signal t;
        process P; start; create A; create B(offspring); nextstate s; state s; endstate; endprocess;
        process A (0); start; nextstate s; state s; input t; nextstate -; endstate; endprocess;
        process B (0); fpar q Pid; start; output t to q; stop; endprocess; endsystem;",
    script: "",
    report: "\
instance #1 P parent null
0 start
  create A #2
  create B #3
  nextstate s
rest s
instance #2 A parent #1
0 start
  nextstate s
0 input t from #3
  nextstate s
rest s
instance #3 B parent #1
0 start
  output t to #2
  stop
end 0 whole
",
};

/// One that sends to a Pid that the script tells, also before an instance has it. The script sends to the Pid itself,
/// too. What is sent before the instance is created is gone.
pub static MADE_UP: Row = Row {
    specification: "system S; signal tell(Pid), make, t;
        process P; dcl p Pid; start; nextstate s; state s; input tell(p); output t to p; nextstate -;
        input make; create Q; nextstate -; endstate; endprocess;
        process Q (0); start; nextstate q; state q; input t; nextstate -; endstate; endprocess; endsystem;",
    script: "0 tell(#2)\n1 t to #2\n2 make\n3 tell(#2)\n4 t to #2",
    report: "\
instance #1 P parent null
0 start
  nextstate s
0 input tell(#2) from env
  output t to #2
  nextstate s
2 input make from env
  create Q #2
  nextstate s
3 input tell(#2) from env
  output t to #2
  nextstate s
rest s
instance #2 Q parent #1
2 start
  nextstate q
3 input t from #1
  nextstate q
4 input t from env
  nextstate q
rest q
end 4 whole
",
};

/// Two that send each other signals for ever: A sends x to B, which sends y to A, and so on.
pub static PING_PONG: &str = "system S; signal x, y;
    process A; start; output x; nextstate s; state s; input y; output x; nextstate -; endprocess;
    process B; start; nextstate s; state s; input x; output y; nextstate -; endprocess; endsystem;";

/// One that creates as many as it can, and one more.
pub static THOUSAND: &str = "system S;
    process P; dcl n Integer := 0; start; nextstate s; state s; provided n < 1000; task n := n + 1; create Q;
    nextstate -; endstate; endprocess;
    process Q (0); start; stop; endprocess; endsystem;";
