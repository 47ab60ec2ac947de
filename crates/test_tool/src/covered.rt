//! Texts with what their runs covered. The wanted texts are made by hand from the traces, never by the program.

/// A specification with its script, and what the run covered.
pub struct Covered {
    pub name: &'static str,
    pub text: &'static str,
    /// Whether the run counts as one with workers.
    pub on_threads: bool,
    pub plain: &'static str,
    pub tracefile: &'static str,
}

const INRES: &str = "\
/* Inres: one user connects, sends data and is told of the end; the other one accepts, gets the data and ends it. The
   second unit of data comes spoiled, and isn't answered. See the timer Answer, by which it goes once more; the numbers
   of the units, 1 and 0 by turns; and how `connect` joins a channel in a block to those outside it. */
system Inres;

signal ICONreq, ICONconf, IDATreq(Integer), IDISind;
signal ICONind, ICONresp, IDATind(Integer), IDISreq;
signal CR, CC, DT(Natural, Integer), AK(Natural), DR;
signallist Forth = CR, DT;
signallist Back = CC, AK, DR;

channel Caller
  from env to Initiation with ICONreq, IDATreq;
  from Initiation to env with ICONconf, IDISind;
endchannel Caller;

channel Line
  from Initiation to Response with (Forth);
  from Response to Initiation with (Back);
endchannel Line;

channel Called
  from env to Response with ICONresp, IDISreq;
  from Response to env with ICONind, IDATind;
endchannel Called;

block Initiation;
  channel Inside
    from env to Initiator with ICONreq, IDATreq, (Back);
    from Initiator to env with ICONconf, IDISind, (Forth);
  endchannel Inside;

  connect Caller, Line and Inside;

  process Initiator;
    dcl number, answered Natural, data Integer;
    timer Answer := 5;

    start;
      nextstate disconnected;

    state disconnected;
      input ICONreq;
        output CR;
        nextstate calling;
    endstate disconnected;

    state calling;
      input CC;
        task number := 1;
        output ICONconf;
        nextstate connected;
    endstate calling;

    state connected;
      input IDATreq(data);
        output DT(number, data);
        set(Answer);
        nextstate sending;
    endstate connected;

    state sending;
      save IDATreq;

      input AK(answered);
        decision answered = number;
          (true):
            reset(Answer);
            task number := 1 - number;
            nextstate connected;
          (false):
            nextstate -;
        enddecision;

      input Answer;
        output DT(number, data);
        set(Answer);
        nextstate -;
    endstate sending;

    state calling, connected, sending;
      input DR;
        reset(Answer);
        output IDISind;
        nextstate disconnected;
    endstate;
  endprocess Initiator;
endblock Initiation;

block Response;
  process Responder;
    dcl number, last, count Natural := 0, data Integer;

    start;
      nextstate disconnected;

    state disconnected;
      input CR;
        output ICONind;
        nextstate called;
    endstate disconnected;

    state called;
      input ICONresp;
        task last := 0;
        output CC;
        nextstate connected;
    endstate called;

    state connected;
      input DT(number, data);
        task count := count + 1;
        decision count;
          (2): /* spoiled */
            nextstate -;
          else:
        enddecision;
        decision number = last;
          (true): /* known already */
          (false):
            output IDATind(data);
            task last := number;
        enddecision;
        output AK(number);
        nextstate -;
    endstate connected;

    state called, connected;
      input IDISreq;
        output DR;
        nextstate disconnected;
    endstate;
  endprocess Responder;
endblock Response;

endsystem Inres;
%script
0 ICONreq
1 ICONresp
2 IDATreq(11)
2 IDATreq(22)
10 IDATreq(33)
12 IDISreq
12 IDATreq(44)
20
";

const ALTERNATING_BIT: &str = "\
/* The alternating bit protocol, over a line that loses the third and the fifth of each five signals. See that a `put`
   waits, saved, until the number before it is confirmed; that the timer Retry has a lost frame sent once more; and that
   the receiver confirms a frame which comes twice, but delivers it once. */
system AlternatingBit;

signal put(Integer), delivered(Integer);
signal frame(Integer, Boolean), confirm(Boolean);

channel Source
  from env to Transmitter with put;
endchannel Source;

channel NearEnd
  from Transmitter to Line with frame;
  from Line to Transmitter with confirm;
endchannel NearEnd;

channel FarEnd
  from Line to Receiver with frame;
  from Receiver to Line with confirm;
endchannel FarEnd;

channel Sink
  from Receiver to env with delivered;
endchannel Sink;

process Transmitter;
  dcl number Integer, bit, answer Boolean := false;
  timer Retry := 5;

  start;
    nextstate ready;

  state ready;
    input put(number);
      output frame(number, bit);
      set(Retry);
      nextstate waiting;
  endstate ready;

  state waiting;
    save put;

    input confirm(answer);
      decision answer = bit;
        (true):
          reset(Retry);
          task bit := not bit;
          nextstate ready;
        (false):
          nextstate -;
      enddecision;

    input Retry;
      output frame(number, bit);
      set(Retry);
      nextstate -;
  endstate waiting;
endprocess Transmitter;

process Line;
  dcl number Integer, bit Boolean, count Natural := 0;

  start;
    nextstate carrying;

  state carrying;
    input frame(number, bit);
      task count := count + 1;
      decision count mod 5;
        (0, 3):
          nextstate -;
        else:
          output frame(number, bit);
          nextstate -;
      enddecision;

    input confirm(bit);
      task count := count + 1;
      decision count mod 5;
        (0, 3):
          nextstate -;
        else:
          output confirm(bit);
          nextstate -;
      enddecision;
  endstate carrying;
endprocess Line;

process Receiver;
  dcl number Integer, bit, expected Boolean := false;

  start;
    nextstate listening;

  state listening;
    input frame(number, bit);
      decision bit = expected;
        (true):
          output delivered(number);
          task expected := not expected;
        (false):
      enddecision;
      output confirm(bit);
      nextstate -;
  endstate listening;
endprocess Receiver;

endsystem AlternatingBit;
%script
0 put(11)
0 put(22)
8 put(33)
30
";

const LIFT: &str = "\
/* A lift for the floors 0 to 3. See that a wish for another floor is saved until the lift is idle; that each floor
   takes the time of the timer Travel; and that at 9 the alarm is taken before the signal of Travel, which came first:
   it is a priority input, and `reset` takes away the signal that waits. */
system Lift;

synonym top Natural = 3;

signal wanted(Natural), at(Natural), refused(Natural), doors(Boolean), alarm, resume;

process Car;
  dcl floor, goal Natural := 0;
  timer Travel := 2, Door := 1;

  start;
    output at(floor);
    nextstate idle;

  state idle;
    input wanted(goal);
      decision goal;
        (0 : top):
          join drive;
        else:
          output refused(goal);
          nextstate -;
      enddecision;
  endstate idle;

  state moving;
    save wanted;

    input Travel;
      decision goal > floor;
        (true):
          task floor := floor + 1;
        (false):
          task floor := floor - 1;
      enddecision;
      output at(floor);
      join drive;

    priority input alarm;
      reset(Travel);
      nextstate stuck;
  endstate moving;

  state stuck;
    save wanted;

    input resume;
      join drive;
  endstate stuck;

  state open;
    save wanted;

    input Door;
      output doors(false);
      nextstate idle;
  endstate open;

  connection drive:
    decision goal = floor;
      (true):
        output doors(true);
        set(Door);
        nextstate open;
      (false):
        set(Travel);
        nextstate moving;
    enddecision;
  endconnection drive;
endprocess Car;

endsystem Lift;
%script
0 wanted(2)
1 wanted(0)
1 wanted(7)
9 alarm
12 resume
30
";

const VENDING_MACHINE: &str = "\
/* A machine for tea and coffee. See a decision with a range, several answers and an `else`; that a synonym's value may
   rest on another's; that a part of a decision without an end of its own goes on behind `enddecision`; and that the
   timer Idle, set again by each coin, gives the money back, as the button `cancel` does. */
system VendingMachine;

synonym tea Natural = 1, coffee Natural = 2;
synonym price_of_tea Natural = 3, price_of_coffee Natural = price_of_tea + 2;

signal coin(Natural), choice(Natural), cancel;
signal cup(Natural), money(Natural), beep;

channel Front
  from env to Machine with coin, choice, cancel;
  from Machine to env with cup, money, beep;
endchannel Front;

process Machine;
  dcl sum, value, price, kind Natural := 0;
  timer Idle := 10;

  start;
    nextstate ready;

  state ready, paying;
    input coin(value);
      decision value;
        (1 : 2, 5):
          task sum := sum + value;
          set(Idle);
          nextstate paying;
        else:
          output money(value);
          nextstate -;
      enddecision;
  endstate;

  state ready;
    input choice, cancel;
      output beep;
      nextstate -;
  endstate ready;

  state paying;
    input choice(kind);
      decision kind;
        (tea):
          task price := price_of_tea;
        (coffee):
          task price := price_of_coffee;
        else:
          output beep;
          nextstate -;
      enddecision;
      decision sum - price;
        (< 0):
          output beep;
          nextstate -;
        (0):
        else:
          output money(sum - price);
      enddecision;
      output cup(kind);
      task sum := 0;
      reset(Idle);
      nextstate ready;

    input cancel, Idle;
      output money(sum);
      task sum := 0;
      reset(Idle);
      nextstate ready;
  endstate paying;
endprocess Machine;

endsystem VendingMachine;
%script
0 choice(1)
1 coin(2)
2 coin(3)
3 choice(1)
4 coin(2)
5 choice(1)
10 coin(5)
11 choice(7)
12 choice(2)
15 coin(2)
16 cancel
20 coin(1)
28 coin(1)
50
";

const WATCHDOG: &str = "\
/* A watchdog: each station that has joined must report every five ticks. See that the timer Silence has a parameter:
   there is one for each station, each with its own time; that `reset` stops that of a station which leaves; and that
   `active` tells of which stations a report is expected. */
system Watchdog;

synonym patience Duration = 5;

signal joins(Integer), reports(Integer), leaves(Integer);
signal lost(Integer), unknown(Integer);

process Watch;
  dcl station Integer;
  timer Silence(Integer) := patience;

  start;
    nextstate watching;

  state watching;
    input joins(station);
      set(Silence(station));
      nextstate -;

    input reports(station);
      decision active(Silence(station));
        (true):
          set(Silence(station));
        (false):
          output unknown(station);
      enddecision;
      nextstate -;

    input leaves(station);
      reset(Silence(station));
      nextstate -;

    input Silence(station);
      output lost(station);
      nextstate -;
  endstate watching;
endprocess Watch;

endsystem Watchdog;
%script
0 joins(1)
1 joins(2)
2 joins(3)
4 reports(1)
5 reports(3)
# At 6 nothing was heard of station 2 for five ticks.
8 leaves(3)
8 reports(1)
# At 13 the time of station 1 has come before its report is heard.
13 reports(1)
30
";

const STARS: &str = "\
/* Asterisks, a save, a priority input, continuous signals and what is discarded; two instances; a decision in another;
   a state that is never entered. */
system Stars;

signal go(Integer), hush, tick, odd;

process Walker (2, 2);
  dcl n, left Integer := 0;

  start;
    decision 1 + 1; (2): else: stop; enddecision;
    nextstate idle;

  state idle;
    input go(n);
      decision n;
        (< 0):
          nextstate -;
        (0 : 1, /* both */
         2):
          decision n;
            (0): nextstate deaf;
            (1, 2): task left := n;
          enddecision;
        else:
          join lost;
      enddecision;
      nextstate busy;

    priority input hush;
      nextstate -;
  endstate idle;

  state busy;
    save go;

    provided left > 1;
      task left := left - 1;
      decision left; (1): nextstate idle; else: enddecision;
      nextstate -;

    provided left < 0;
      nextstate deaf;
  endstate busy;

  state *(deaf);
    input tick;
      nextstate -;
  endstate;

  state deaf;
    save hush;

    input *;
      nextstate -;
  endstate deaf;

  state gone, idle;
    input odd;
      stop;
  endstate;

  connection lost:
    decision n > 5;
      (true): stop;
      (false): nextstate -;
    enddecision;
  endconnection;
endprocess Walker;

endsystem Stars;
%script
0 go(2)
0 go(3) to #2
1 hush
2 go(1)
3 odd
3 tick
4 go(9)
5 go(0) to #2
6 odd to #2
6 hush to #2
7 tick to #2
7 go(4) to #2
9
";

const SHORT: &str = "\
system S; signal a, b; process P; start; nextstate s; state s; input a; decision true; (true): (false): \
    enddecision; nextstate -; endprocess; \
    process Q; start; nextstate t; state t; input b; nextstate -; endprocess; endsystem;
%script
0 a
0 a
0 b
1
";

const NEAR: &str = "\
/* A transition of 9,001 statements: with marks it is too long, so nothing is known of answers. */
system Near;

process P;
  dcl n Integer := 0;

  start;
    again:
    task n := n + 1;
    decision n < 3000;
      (true):
        join again;
      (false):
    enddecision;
    nextstate s;

  state s;
  endstate s;
endprocess P;

endsystem Near;
";

pub static COVERED: [Covered; 9] = [
    Covered {
        name: "inres",
        text: INRES,
        on_threads: false,
        plain: "\
never: 5 of 19
  71:11   Initiator  decision of 66:9   (false)
  82:13   Initiator  in calling         input DR
  82:13   Initiator  in connected       input DR
  119:11  Responder  decision of 118:9  (true)
  129:13  Responder  in called          input IDISreq
Initiator: states 4 of 4, stimuli 6 of 8, answers 1 of 2
  42:11   in disconnected    entered         2
  43:13   in disconnected    input ICONreq   1
  48:11   in calling         entered         1
  49:13   in calling         input CC        1
  55:11   in connected       entered         4
  56:13   in connected       input IDATreq   4
  62:11   in sending         entered         5
  65:13   in sending         input AK        3
  67:11   decision of 66:9   (true)          3
  71:11   decision of 66:9   (false)         0
  75:13   in sending         input Answer    1
  82:13   in calling         input DR        0
  82:13   in connected       input DR        0
  82:13   in sending         input DR        1
Responder: states 3 of 3, stimuli 4 of 5, answers 3 of 4
  97:11   in disconnected    entered         2
  98:13   in disconnected    input CR        1
  103:11  in called          entered         1
  104:13  in called          input ICONresp  1
  110:11  in connected       entered         5
  111:13  in connected       input DT        4
  114:11  decision of 113:9  (2)             1
  116:11  decision of 113:9  else            3
  119:11  decision of 118:9  (true)          0
  120:11  decision of 118:9  (false)         3
  129:13  in called          input IDISreq   0
  129:13  in connected       input IDISreq   1
",
        tracefile: "\
TN:
SF:so?me.sdl
BRDA:43,13,0,1
BRDA:49,13,1,1
BRDA:56,13,2,4
BRDA:65,13,3,3
BRDA:66,9,0,3
BRDA:66,9,1,0
BRDA:75,13,3,1
BRDA:82,13,1,0
BRDA:82,13,2,0
BRDA:82,13,3,1
BRDA:98,13,0,1
BRDA:104,13,1,1
BRDA:111,13,2,4
BRDA:113,9,0,1
BRDA:113,9,1,3
BRDA:118,9,0,0
BRDA:118,9,1,3
BRDA:129,13,1,0
BRDA:129,13,2,1
BRF:19
BRH:14
DA:43,1
DA:49,1
DA:56,4
DA:65,3
DA:66,3
DA:75,1
DA:82,1
DA:98,1
DA:104,1
DA:111,4
DA:113,4
DA:118,3
DA:129,1
LF:13
LH:13
end_of_record
",
    },
    Covered {
        name: "inres+workers",
        text: INRES,
        on_threads: true,
        plain: "\
never: 3 of 13
  82:13   Initiator  in calling       input DR
  82:13   Initiator  in connected     input DR
  129:13  Responder  in called        input IDISreq
answers of decisions: not known of a run with workers
Initiator: states 4 of 4, stimuli 6 of 8
  42:11   in disconnected  entered         2
  43:13   in disconnected  input ICONreq   1
  48:11   in calling       entered         1
  49:13   in calling       input CC        1
  55:11   in connected     entered         4
  56:13   in connected     input IDATreq   4
  62:11   in sending       entered         5
  65:13   in sending       input AK        3
  75:13   in sending       input Answer    1
  82:13   in calling       input DR        0
  82:13   in connected     input DR        0
  82:13   in sending       input DR        1
Responder: states 3 of 3, stimuli 4 of 5
  97:11   in disconnected  entered         2
  98:13   in disconnected  input CR        1
  103:11  in called        entered         1
  104:13  in called        input ICONresp  1
  110:11  in connected     entered         5
  111:13  in connected     input DT        4
  129:13  in called        input IDISreq   0
  129:13  in connected     input IDISreq   1
",
        tracefile: "\
TN:answers_not_known
SF:so?me.sdl
BRDA:43,13,0,1
BRDA:49,13,1,1
BRDA:56,13,2,4
BRDA:65,13,3,3
BRDA:75,13,3,1
BRDA:82,13,1,0
BRDA:82,13,2,0
BRDA:82,13,3,1
BRDA:98,13,0,1
BRDA:104,13,1,1
BRDA:111,13,2,4
BRDA:129,13,1,0
BRDA:129,13,2,1
BRF:13
BRH:10
DA:43,1
DA:49,1
DA:56,4
DA:65,3
DA:75,1
DA:82,1
DA:98,1
DA:104,1
DA:111,4
DA:129,1
LF:10
LH:10
end_of_record
",
    },
    Covered {
        name: "alternating_bit",
        text: ALTERNATING_BIT,
        on_threads: false,
        plain: "\
never: 1 of 14
  50:9   Transmitter  decision of 45:7  (false)
Transmitter: states 2 of 2, stimuli 3 of 3, answers 1 of 2
  34:9   in ready          entered        4
  35:11  in ready          input put      3
  41:9   in waiting        entered        7
  44:11  in waiting        input confirm  3
  46:9   decision of 45:7  (true)         3
  50:9   decision of 45:7  (false)        0
  54:11  in waiting        input Retry    4
Line: states 1 of 1, stimuli 2 of 2, answers 4 of 4
  67:9   in carrying       entered        13
  68:11  in carrying       input frame    7
  71:9   decision of 70:7  (0, 3)         2
  73:9   decision of 70:7  else           5
  78:11  in carrying       input confirm  5
  81:9   decision of 80:7  (0, 3)         2
  83:9   decision of 80:7  else           3
Receiver: states 1 of 1, stimuli 1 of 1, answers 2 of 2
  96:9   in listening      entered        6
  97:11  in listening      input frame    5
  99:9   decision of 98:7  (true)         3
  102:9  decision of 98:7  (false)        2
",
        tracefile: "\
TN:
SF:so?me.sdl
BRDA:35,11,0,3
BRDA:44,11,1,3
BRDA:45,7,0,3
BRDA:45,7,1,0
BRDA:54,11,1,4
BRDA:68,11,0,7
BRDA:70,7,0,2
BRDA:70,7,1,5
BRDA:78,11,0,5
BRDA:80,7,0,2
BRDA:80,7,1,3
BRDA:97,11,0,5
BRDA:98,7,0,3
BRDA:98,7,1,2
BRF:14
BRH:13
DA:35,3
DA:44,3
DA:45,3
DA:54,4
DA:68,7
DA:70,7
DA:78,5
DA:80,5
DA:97,5
DA:98,5
LF:10
LH:10
end_of_record
",
    },
    Covered {
        name: "lift",
        text: LIFT,
        on_threads: false,
        plain: "\
never: 0 of 11
Car: states 4 of 4, stimuli 5 of 5, answers 6 of 6
  18:9   in idle           entered               4
  19:11  in idle           input wanted          3
  21:9   decision of 20:7  (0 : top)             2
  23:9   decision of 20:7  else                  1
  29:9   in moving         entered               5
  32:11  in moving         input Travel          4
  34:9   decision of 33:7  (true)                2
  36:9   decision of 33:7  (false)               2
  42:20  in moving         priority input alarm  1
  47:9   in stuck          entered               1
  50:11  in stuck          input resume          1
  54:9   in open           entered               2
  57:11  in open           input Door            2
  64:7   decision of 63:5  (true)                2
  68:7   decision of 63:5  (false)               5
",
        tracefile: "\
TN:
SF:so?me.sdl
BRDA:19,11,0,3
BRDA:20,7,0,2
BRDA:20,7,1,1
BRDA:32,11,1,4
BRDA:33,7,0,2
BRDA:33,7,1,2
BRDA:42,20,1,1
BRDA:50,11,2,1
BRDA:57,11,3,2
BRDA:63,5,0,2
BRDA:63,5,1,5
BRF:11
BRH:11
DA:19,3
DA:20,3
DA:32,4
DA:33,4
DA:42,1
DA:50,1
DA:57,2
DA:63,7
LF:8
LH:8
end_of_record
",
    },
    Covered {
        name: "vending_machine",
        text: VENDING_MACHINE,
        on_threads: false,
        plain: "\
never: 1 of 15
  38:19  Machine  in ready          input cancel
Machine: states 2 of 2, stimuli 6 of 7, answers 8 of 8
  24:9   in ready          entered       6
  24:16  in paying         entered       9
  25:11  in ready          input coin    4
  25:11  in paying         input coin    3
  27:9   decision of 26:7  (1 : 2, 5)    6
  31:9   decision of 26:7  else          1
  38:11  in ready          input choice  1
  38:19  in ready          input cancel  0
  44:11  in paying         input choice  4
  46:9   decision of 45:7  (tea)         2
  48:9   decision of 45:7  (coffee)      1
  50:9   decision of 45:7  else          1
  55:9   decision of 54:7  (< 0)         1
  58:9   decision of 54:7  (0)           1
  59:9   decision of 54:7  else          1
  67:11  in paying         input cancel  1
  67:19  in paying         input Idle    1
",
        tracefile: "\
TN:
SF:so?me.sdl
BRDA:25,11,0,4
BRDA:25,11,1,3
BRDA:26,7,0,6
BRDA:26,7,1,1
BRDA:38,11,0,1
BRDA:38,19,0,0
BRDA:44,11,1,4
BRDA:45,7,0,2
BRDA:45,7,1,1
BRDA:45,7,2,1
BRDA:54,7,0,1
BRDA:54,7,1,1
BRDA:54,7,2,1
BRDA:67,11,1,1
BRDA:67,19,1,1
BRF:15
BRH:14
DA:25,7
DA:26,7
DA:38,1
DA:44,4
DA:45,4
DA:54,3
DA:67,2
LF:7
LH:7
end_of_record
",
    },
    Covered {
        name: "watchdog",
        text: WATCHDOG,
        on_threads: false,
        plain: "\
never: 0 of 6
Watch: states 1 of 1, stimuli 4 of 4, answers 2 of 2
  18:9   in watching       entered        11
  19:11  in watching       input joins    3
  23:11  in watching       input reports  4
  25:9   decision of 24:7  (true)         3
  27:9   decision of 24:7  (false)        1
  32:11  in watching       input leaves   1
  36:11  in watching       input Silence  2
",
        tracefile: "\
TN:
SF:so?me.sdl
BRDA:19,11,0,3
BRDA:23,11,0,4
BRDA:24,7,0,3
BRDA:24,7,1,1
BRDA:32,11,0,1
BRDA:36,11,0,2
BRF:6
BRH:6
DA:19,3
DA:23,4
DA:24,4
DA:32,1
DA:36,2
LF:5
LH:5
end_of_record
",
    },
    Covered {
        name: "stars",
        text: STARS,
        on_threads: false,
        plain: "\
never: 9 of 21
  11:26  Walker  decision of 11:5   else
  17:9   Walker  decision of 16:7   (< 0)
  39:43  Walker  decision of 39:7   else
  42:5   Walker  in busy            provided 2
  47:11  Walker  in idle            input tick
  47:11  Walker  in gone            input tick
  59:11  Walker  in idle            input odd
  59:11  Walker  in gone            input odd
  65:7   Walker  decision of 64:5   (true)
never entered: 1 of 4 states
  58:9   Walker  in gone            entered
Walker: states 3 of 4, stimuli 5 of 10, answers 7 of 11
  11:21  decision of 11:5   (2)                  2
  11:26  decision of 11:5   else                 0
  14:9   in idle            entered              5
  15:11  in idle            input go             4
  17:9   decision of 16:7   (< 0)                0
  19:9   decision of 16:7   (0 : 1, 2)           3
  22:13  decision of 21:11  (0)                  1
  23:13  decision of 21:11  (1, 2)               2
  25:9   decision of 16:7   else                 1
  30:20  in idle            priority input hush  1
  34:9   in busy            entered              3
  37:5   in busy            provided 1           1
  39:22  decision of 39:7   (1)                  1
  39:43  decision of 39:7   else                 0
  42:5   in busy            provided 2           0
  47:11  in idle            input tick           0
  47:11  in busy            input tick           1
  47:11  in gone            input tick           0
  51:9   in deaf            entered              4
  54:11  in deaf            input *              3
  58:9   in gone            entered              0
  59:11  in idle            input odd            0
  59:11  in gone            input odd            0
  65:7   decision of 64:5   (true)               0
  66:7   decision of 64:5   (false)              1
",
        tracefile: "\
TN:
SF:so?me.sdl
BRDA:11,5,0,2
BRDA:11,5,1,0
BRDA:15,11,0,4
BRDA:16,7,0,0
BRDA:16,7,1,3
BRDA:21,11,0,1
BRDA:21,11,1,2
BRDA:16,7,2,1
BRDA:30,20,0,1
BRDA:37,5,1,1
BRDA:39,7,0,1
BRDA:39,7,1,0
BRDA:42,5,1,0
BRDA:47,11,0,0
BRDA:47,11,1,1
BRDA:47,11,3,0
BRDA:54,11,2,3
BRDA:59,11,0,0
BRDA:59,11,3,0
BRDA:64,5,0,0
BRDA:64,5,1,1
BRF:21
BRH:12
DA:11,2
DA:15,4
DA:16,4
DA:21,3
DA:30,1
DA:37,1
DA:39,1
DA:42,0
DA:47,1
DA:54,3
DA:59,0
DA:64,1
LF:12
LH:10
end_of_record
",
    },
    Covered {
        name: "short",
        text: SHORT,
        on_threads: false,
        plain: "\
never: 1 of 4
  1:96   P  decision of 1:73  (false)
P: states 1 of 1, stimuli 1 of 1, answers 1 of 2
  1:61   in s              entered  3
  1:70   in s              input a  2
  1:88   decision of 1:73  (true)   2
  1:96   decision of 1:73  (false)  0
Q: states 1 of 1, stimuli 1 of 1, answers 0 of 0
  1:180  in t              entered  2
  1:189  in t              input b  1
",
        tracefile: "\
TN:
SF:so?me.sdl
BRDA:1,70,0,2
BRDA:1,73,0,2
BRDA:1,73,1,0
BRDA:1,189,0,1
BRF:4
BRH:3
DA:1,5
LF:1
LH:1
end_of_record
",
    },
    Covered {
        name: "near",
        text: NEAR,
        on_threads: false,
        plain: "\
never: 0 of 0
answers of decisions: not known, since a run that counts them is another one
P: states 1 of 1, stimuli 0 of 0
  17:9  in s  entered  1
",
        tracefile: "\
TN:answers_not_known
SF:so?me.sdl
BRF:0
BRH:0
LF:0
LH:0
end_of_record
",
    },
];
