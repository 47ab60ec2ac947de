//! Reports whose records come from two runs, told in orders that are written by hand.

use crate::texts::{in_json, in_lines, report_of, system_of};
use run_record::Report;
use sdl_system::System;
use std::alloc::Global;
use std::mem::swap;
use std::process::Abort;

/// A sends to Q by its name. B creates Q, and with `slow` it does so one step later.
static LATE: &str = "system Late;

signal slow, note;

process B;
  dcl steps Integer := 2;
  timer T;

  start;
    set(now + 5, T);
    nextstate early;

  state early;
    input slow;
      task steps := 1;
      nextstate -;

    input T;
      nextstate late;
  endstate early;

  state late;
    provided steps = 1;
      task steps := 2;
      nextstate -;

    provided steps = 2;
      create Q;
      nextstate over;
  endstate late;

  state over;
  endstate over;
endprocess B;

process A;
  timer T;

  start;
    set(now + 5, T);
    nextstate early;

  state early;
    input T;
      nextstate late;
  endstate early;

  state late;
    provided true;
      output note to Q;
      nextstate over;
  endstate late;

  state over;
  endstate over;
endprocess A;

process Q (0, 1);
  start;
    nextstate taking;

  state taking;
    input note;
      nextstate -;
  endstate taking;
endprocess Q;

endsystem Late;
";

static LATE_LINES: &str = "0 #1 B start
  set T 5
  nextstate early
0 #2 A start
  set T 5
  nextstate early
0 #1 B input slow from env
  task steps := 1
  nextstate early
5 #1 B input T from #1
  nextstate late
5 #2 A input T from #2
  nextstate late
5 #1 B provided 1
  task steps := 2
  nextstate late
5 #1 B provided 2
  create Q #3
  nextstate over
5 #2 A provided 1
  output note to #3
  nextstate over
5 #3 Q start
  nextstate taking
5 #3 Q input note from #2
  nextstate taking
#1 B rest over
#2 A rest over
#3 Q rest taking
end 6 whole
";

/// In the order of the lines, and then records close.
static LATE_TELLERS: [u32; 27] = [
    1, 1, 1, 2, 2, 2, 1, 1, 1, 1, 1, 2, 2, 1, 1, 1, 1, 1, 1, 2, 2, 2, 3, 3, 3, 3, 0,
];

/// A sends before B creates anybody.
static EARLY_TELLERS: [u32; 10] = [1, 1, 1, 2, 2, 2, 2, 2, 2, 2];

static EARLY_END: &str = "5 #2 A input T from #2
  nextstate late
5 #2 A provided 1
end 6 whole
order: not known from #2 on
";

/// A sends to B and then to Q in one transition. B creates Q when it takes what A sent, or when it's told to before.
static CIRCLE: &str = "system Circle;

signal make, go, note;

process A;
  timer T;

  start;
    set(now + 5, T);
    nextstate waiting;

  state waiting;
    input T;
      output go to B;
      output note to Q;
      nextstate -;
  endstate waiting;
endprocess A;

process B;
  start;
    nextstate making;

  state making;
    input make, go;
      create Q;
      nextstate -;
  endstate making;
endprocess B;

process Q (0, 1);
  start;
    nextstate taking;

  state taking;
    input note;
      nextstate -;
  endstate taking;
endprocess Q;

endsystem Circle;
";

static CIRCLE_LINES: &str = "0 #1 A start
  set T 5
  nextstate waiting
0 #2 B start
  nextstate making
5 #1 A input T from #1
  output go to #2 waits
end 6 whole
order: not known from #1 on
";

/// Both start; A takes T, and sends to B and then to Q.
static CIRCLE_TELLERS: [u32; 9] = [1, 1, 1, 2, 2, 1, 1, 1, 1];

/// A teller sends to the number that it's told. A maker creates who has that number.
static TOLD: &str = "system Told;

signal tell(Pid), make, first, second;

process Teller;
  dcl to_whom Pid;

  start;
    nextstate telling;

  state telling;
    input tell(to_whom);
      output first, second to to_whom;
      nextstate -;
  endstate telling;
endprocess Teller;

process Maker;
  start;
    nextstate making;

  state making;
    input make;
      create Taker;
      nextstate -;
  endstate making;
endprocess Maker;

process Taker (0, 1);
  start;
    nextstate taking;

  state taking;
    input first, second;
      nextstate -;
  endstate taking;
endprocess Taker;

endsystem Told;
";

static TOLD_LINES: &str = "0 #1 Teller start
  nextstate telling
0 #2 Maker start
  nextstate making
1 #2 Maker input make from env
  create Taker #3
  nextstate making
1 #1 Teller input tell(#3) from env
  output first to #3
  output second to #3
  nextstate telling
1 #3 Taker start
  nextstate taking
2 #3 Taker input first from #1
  nextstate taking
2 #3 Taker input second from #1
  nextstate taking
#1 Teller rest telling
#2 Maker rest making
#3 Taker rest taking
end 2 whole
";

/// In the order of the lines. The lines of the script are no events.
static TOLD_TELLERS: [u32; 19] = [1, 1, 2, 2, 0, 2, 2, 2, 0, 1, 1, 1, 1, 3, 3, 3, 3, 3, 3];

/// A reader takes what a writer sends once the environment asks for it.
static UNSENT: &str = "system Unsent;

signal ask, word;

process Reader;
  start;
    nextstate reading;

  state reading;
    input word;
      nextstate -;
  endstate reading;
endprocess Reader;

process Writer;
  start;
    nextstate writing;

  state writing;
    input ask;
      output word to Reader;
      nextstate -;
  endstate writing;
endprocess Writer;

endsystem Unsent;
";

static UNSENT_LINES: &str = "0 #1 Reader start
  nextstate reading
0 #2 Writer start
  nextstate writing
end 0 whole
order: not known from #1 on
";

/// Both start, and the reader takes what nobody sent.
static UNSENT_TELLERS: [u32; 6] = [1, 1, 2, 2, 1, 1];

static UNSENT_JSON: &str = "\
    {\"at\":0,\"instance\":1,\"process\":\"Reader\",\"by\":\"start\",\"does\":[{\"nextstate\":\"reading\"}]}\n\
    {\"at\":0,\"instance\":2,\"process\":\"Writer\",\"by\":\"start\",\"does\":[{\"nextstate\":\"writing\"}]}\n\
    {\"end\":0,\"whole\":true,\"instances\":[{\"instance\":1,\"process\":\"Reader\",\"parent\":null,\
    \"rest\":\"reading\"},{\"instance\":2,\"process\":\"Writer\",\"parent\":null,\"rest\":\"writing\"}]}\n\
    {\"stuck\":1}\n";

/// What is sent by name is told after the create of who takes it, and can't be told before.
#[test]
fn sends_after_the_create(rt: HostRuntime) {
    let alloc = rt.alloc();
    let system = system_of(&rt, alloc, LATE);
    let report = mixed(&rt, alloc, &system, "6\n", "0 slow\n6\n", 0);
    let lines = in_lines(alloc, &system, &report, &LATE_TELLERS, 1).expect(&rt, "lines");
    assert!(rt; lines.as_slice() == LATE_LINES.as_bytes());
    let lines = in_lines(alloc, &system, &report, &EARLY_TELLERS, 1).expect(&rt, "lines");
    assert!(rt; str::from_utf8(lines.as_slice()).is_ok_and(|text| text.ends_with(EARLY_END)));
}

/// What is sent to a number is there once who has it is created.
#[test]
fn sends_to_a_number_after_the_create(rt: HostRuntime) {
    let alloc = rt.alloc();
    let system = system_of(&rt, alloc, TOLD);
    let (apart, together) = ("1 make\n2 tell(#3)\n", "1 make\n1 tell(#3)\n2\n");
    let report = mixed(&rt, alloc, &system, apart, together, 0);
    let lines = in_lines(alloc, &system, &report, &TOLD_TELLERS, 2).expect(&rt, "lines");
    assert!(rt; lines.as_slice() == TOLD_LINES.as_bytes());
}

/// A can't make the whole of its transition at once.
#[test]
fn stops_in_a_transition(rt: HostRuntime) {
    let alloc = rt.alloc();
    let system = system_of(&rt, alloc, CIRCLE);
    let report = mixed(&rt, alloc, &system, "0 make\n6\n", "6\n", 1);
    let lines = in_lines(alloc, &system, &report, &CIRCLE_TELLERS, 0).expect(&rt, "lines");
    assert!(rt; lines.as_slice() == CIRCLE_LINES.as_bytes());
}

#[test]
fn says_where_the_order_ends(rt: HostRuntime) {
    let alloc = rt.alloc();
    let system = system_of(&rt, alloc, UNSENT);
    let report = mixed(&rt, alloc, &system, "0 ask\n", "0\n", 1);
    let lines = in_lines(alloc, &system, &report, &UNSENT_TELLERS, 0).expect(&rt, "lines");
    assert!(rt; lines.as_slice() == UNSENT_LINES.as_bytes());
    let json = in_json(alloc, &system, &report, &UNSENT_TELLERS).expect(&rt, "JSON");
    assert!(rt; json.as_slice() == UNSENT_JSON.as_bytes());
}

/// The report of the run on one script, with the record at this place from the run on another one.
fn mixed<R: Abort>(
    rt: &R,
    alloc: Global,
    system: &System,
    script: &str,
    other: &str,
    place: usize,
) -> Report {
    let mut report = report_of(rt, alloc, system, script);
    let mut strange = report_of(rt, alloc, system, other);
    let record = report.records.get_mut(place).expect(rt, "a record");
    swap(
        record,
        strange.records.get_mut(place).expect(rt, "a record"),
    );
    report
}
