//! A run in which a transition is told in parts: #1 sends x, #2 takes it and answers #1, and then #1 ends.

use crate::runs::{Run, all, chart_of};
use crate::texts::{in_json, in_lines, in_msc, report_of, system_of};
use view_chart::Chart;
use view_timeline::timeline_in;

static TEXT: &str = "system Parts;

signal x, y;

process A (1, 1);
  dcl n Integer;
  timer T := 5;

  start;
    set(T);
    nextstate waiting;

  state waiting;
    input T;
      output x to B;
      task n := 1;
      stop;
  endstate waiting;
endprocess A;

process B (1, 1);
  start;
    nextstate waiting;

  state waiting;
    input x;
      output y to sender;
      nextstate waiting;
  endstate waiting;
endprocess B;

endsystem Parts;
";

static SCRIPT: &str = "9\n";

/// #1 and #2 start; #1 takes T and sends x; #2 takes that, sends y, and enters its state; #1 goes on, and ends. The
/// line of the script is no event.
static TELLERS: [u32; 13] = [1, 1, 1, 2, 2, 1, 1, 2, 2, 2, 1, 1, 0];

static LINES: &str = "0 #1 A start
  set T 5
  nextstate waiting
0 #2 B start
  nextstate waiting
5 #1 A input T from #1
  output x to #2
5 #2 B input x from #1
  output y to #1 gone
  nextstate waiting
5 #1 A goes on
  task n := 1
  stop
#2 B rest waiting
end 9 whole
";

static JSON: &str = concat!(
    "{\"at\":0,\"instance\":1,\"process\":\"A\",\"by\":\"start\",\"does\":[",
    "{\"set\":\"T\",\"values\":[],\"due\":5},{\"nextstate\":\"waiting\"}]}\n",
    "{\"at\":0,\"instance\":2,\"process\":\"B\",\"by\":\"start\",\"does\":[",
    "{\"nextstate\":\"waiting\"}]}\n",
    "{\"at\":5,\"instance\":1,\"process\":\"A\",\"by\":\"input\",\"signal\":\"T\",\"values\":[],",
    "\"from\":\"#1\",\"does\":[",
    "{\"output\":\"x\",\"values\":[],\"to\":\"#2\",\"arrow\":1}]}\n",
    "{\"at\":5,\"instance\":2,\"process\":\"B\",\"by\":\"input\",\"signal\":\"x\",\"values\":[],",
    "\"from\":\"#1\",\"arrow\":1,\"does\":[",
    "{\"output\":\"y\",\"values\":[],\"to\":\"#1\",\"gone\":true},{\"nextstate\":\"waiting\"}]}\n",
    "{\"at\":5,\"instance\":1,\"process\":\"A\",\"by\":\"goes on\",\"does\":[",
    "{\"task\":\"n\",\"value\":1},{\"stop\":true}]}\n",
    "{\"end\":9,\"whole\":true,\"instances\":[{\"instance\":1,\"process\":\"A\",\"parent\":null},",
    "{\"instance\":2,\"process\":\"B\",\"parent\":null,\"rest\":\"waiting\"}]}\n",
);

static MSC: &str = "msc Parts;
inst A_1: process A, B_2: process B;
A_1: instance process A; condition start comment 'at 0'; starttimer T comment 'due 5'; condition waiting;
B_2: instance process B; condition start comment 'at 0'; condition waiting;
A_1: timeout T comment 'at 5'; out x,m1 to B_2;
B_2: in x,m1 from A_1 comment 'at 5'; out y to lost A_1 comment 'gone'; condition waiting;
A_1: action 'n := 1'; stop;
B_2: endinstance comment 'rest waiting';
endmsc; /* end 9 whole */
";

#[test]
fn tells_parts_in_lines(rt: HostRuntime) {
    let alloc = rt.alloc();
    let system = system_of(&rt, alloc, TEXT);
    let report = report_of(&rt, alloc, &system, SCRIPT);
    let lines = in_lines(alloc, &system, &report, &TELLERS, 0).expect(&rt, "lines");
    assert!(rt; lines.as_slice() == LINES.as_bytes());
}

#[test]
fn tells_parts_in_json(rt: HostRuntime) {
    let alloc = rt.alloc();
    let system = system_of(&rt, alloc, TEXT);
    let report = report_of(&rt, alloc, &system, SCRIPT);
    let json = in_json(alloc, &system, &report, &TELLERS).expect(&rt, "JSON");
    assert!(rt; json.as_slice() == JSON.as_bytes());
}

#[test]
fn tells_parts_in_a_chart(rt: HostRuntime) {
    let alloc = rt.alloc();
    let system = system_of(&rt, alloc, TEXT);
    let report = report_of(&rt, alloc, &system, SCRIPT);
    let msc = in_msc(alloc, "Parts", &system, &report, &TELLERS).expect(&rt, "a text");
    assert!(rt; msc.as_slice() == MSC.as_bytes());
}

/// #2 can't take x before it is sent.
#[test]
fn stops_where_nothing_was_sent(rt: HostRuntime) {
    let alloc = rt.alloc();
    let system = system_of(&rt, alloc, TEXT);
    let report = report_of(&rt, alloc, &system, SCRIPT);
    let lines = in_lines(alloc, &system, &report, &[2, 2, 2], 0).expect(&rt, "lines");
    let told = "0 #2 B start\n  nextstate waiting\nend 9 whole\norder: not known from #2 on\n";
    assert!(rt; lines.as_slice() == told.as_bytes());
}

/// The part with which #1 goes on has a bar of its own.
#[test]
fn draws_a_bar_for_each_part(rt: HostRuntime) {
    let alloc = rt.alloc();
    let system = system_of(&rt, alloc, TEXT);
    let report = report_of(&rt, alloc, &system, SCRIPT);
    let timeline = timeline_in(alloc, &report, &TELLERS)
        .ok()
        .expect(&rt, "a timeline");
    let run = Run {
        system,
        report,
        timeline,
    };
    let chart = chart_of(&rt, alloc, &run, &all(alloc));
    let begins = "A #1\n5 input T from #1\n  output x to #2";
    let goes_on = "A #1\ngoes on\n  task n := 1\n  stop";
    assert!(rt; chart.bars.len() == 5);
    assert!(rt; count_bars(&chart, begins) == 1);
    assert!(rt; count_bars(&chart, goes_on) == 1);
}

/// How many bars have this title.
fn count_bars(chart: &Chart, title: &str) -> usize {
    chart
        .bars
        .iter()
        .filter(|bar| bar.told.as_str() == title)
        .count()
}
