//! What there is to measure.

use crate::dense::Dense;

/// A thing to measure.
#[derive(Clone, Copy)]
pub struct Thing {
    /// Its name on the command line.
    pub name: &'static str,
    /// Whether it is that of the option `--down`.
    pub is_down: bool,
    pub numbers: Numbers,
    pub what: What,
}

/// Which numbers it has on the command line.
#[derive(Clone, Copy)]
pub enum Numbers {
    /// With how much.
    One,
    /// Of how many instances, this many at most, and how often.
    Two { most: u64 },
    /// How many bytes.
    Bytes,
}

/// What is done.
#[derive(Clone, Copy)]
pub enum What {
    Puts,
    Four,
    Saved,
    Urgent,
    Sets,
    Timers,
    Finish,
    TwoSenders,
    StopAndWorkers,
    SaveInPort,
    /// The run of a specification, without its head and its end. In it `n` and `h` are the two numbers, `twice` is
    /// 2 * `n`, and `most` the lesser of `n` and 1,000.
    Run(&'static str),
    /// The same with the stations of a ring.
    Ring(&'static str),
    /// The check of a text.
    Check(Dense),
}

/// A station of a ring: it waits for its neighbour's Pid, then hands on each token that has hops left.
pub static STATION: &str = "process Station (0, 999); dcl neighbour Pid, left Integer;
start; nextstate alone;
state alone; input next(neighbour); nextstate joined; save token;
state joined; input token(left);
  decision left > 0; (true): output token(left - 1) to neighbour; (false): enddecision; nextstate -;
endprocess;
";

/// The greatest number.
pub const ANY: u64 = 1_000_000_000;

/// All of them.
pub static THINGS: [Thing; 25] = [
    Thing {
        name: "puts",
        is_down: false,
        numbers: Numbers::One,
        what: What::Puts,
    },
    Thing {
        name: "four",
        is_down: false,
        numbers: Numbers::One,
        what: What::Four,
    },
    Thing {
        name: "saved",
        is_down: false,
        numbers: Numbers::One,
        what: What::Saved,
    },
    Thing {
        name: "urgent",
        is_down: false,
        numbers: Numbers::One,
        what: What::Urgent,
    },
    Thing {
        name: "sets",
        is_down: false,
        numbers: Numbers::One,
        what: What::Sets,
    },
    Thing {
        name: "timers",
        is_down: false,
        numbers: Numbers::One,
        what: What::Timers,
    },
    Thing {
        name: "finish",
        is_down: false,
        numbers: Numbers::One,
        what: What::Finish,
    },
    Thing {
        name: "two-senders",
        is_down: false,
        numbers: Numbers::One,
        what: What::TwoSenders,
    },
    Thing {
        name: "stop-and-workers",
        is_down: false,
        numbers: Numbers::One,
        what: What::StopAndWorkers,
    },
    Thing {
        name: "save-in-port",
        is_down: false,
        numbers: Numbers::One,
        what: What::SaveInPort,
    },
    // A maker creates the stations, tells each its neighbour, gives the token to one and stops.
    Thing {
        name: "ring",
        is_down: false,
        numbers: Numbers::Two { most: 999 },
        what: What::Ring(
            "signal token(Integer), next(Pid);
process Maker; dcl first, last Pid, made Integer := 1;
start; create Station; task first := offspring, last := offspring; nextstate making;
state making;
  provided made < n; create Station; output next(offspring) to last; task last := offspring, made := made + 1; nextstate -;
  provided made = n; output next(first) to last; output token(h) to first; stop;
endprocess;
",
        ),
    },
    Thing {
        name: "ring",
        is_down: true,
        numbers: Numbers::Two { most: 999 },
        what: What::Ring(
            "signal token(Integer), next(Pid);
process Maker; dcl first, last Pid, made Integer := 1;
start; create Station; task first := offspring, last := offspring; nextstate making;
state making;
  provided made < n; create Station; output next(last) to offspring; task last := offspring, made := made + 1; nextstate -;
  provided made = n; output next(last) to first; output token(h) to last; stop;
endprocess;
",
        ),
    },
    // A sender fills the port of a receiver with signals that it saves; then both play a ball.
    Thing {
        name: "save",
        is_down: false,
        numbers: Numbers::Two { most: ANY },
        what: What::Run(
            "signal kept(Integer), ball, back;
process Sender; dcl sent Integer := 0, thrown Integer := 0;
start; nextstate filling;
state filling;
  provided sent < n; output kept(sent) to Receiver; task sent := sent + 1; nextstate -;
  provided sent = n; output ball to Receiver; nextstate playing;
state playing; input back; task thrown := thrown + 1;
  decision thrown < h; (true): output ball to sender; (false): enddecision; nextstate -;
endprocess;
process Receiver;
start; nextstate keeping;
state keeping; save kept; input ball; output back to sender; nextstate -;
state never; input kept; nextstate -;
endprocess;
",
        ),
    },
    // A sender sends in rows to a port that takes one signal while a row comes; then what waits is taken.
    Thing {
        name: "flood",
        is_down: false,
        numbers: Numbers::One,
        what: What::Run(
            "signal drop(Integer);
process Source; dcl sent Integer := 0, row Integer;
start; nextstate open;
state open; provided sent < n; task row := 0;
  again: output drop(sent) to Sink; task sent := sent + 1, row := row + 1;
  decision row < 2000 and sent < n; (true): join again; (false): enddecision; nextstate -;
endprocess;
process Sink; dcl last Integer;
start; nextstate open;
state open; input drop(last); nextstate -;
endprocess;
",
        ),
    },
    // Instances that never wait: each transition counts, and the next one can begin.
    Thing {
        name: "busy",
        is_down: false,
        numbers: Numbers::Two { most: 1000 },
        what: What::Run(
            "process Worker (n); dcl turn Integer := 0;
start; nextstate working;
state working; provided turn < h; task turn := turn + 1; nextstate -;
endprocess;
",
        ),
    },
    // A holder sets timers that don't expire before the script's end; then a worker sets and resets its own.
    Thing {
        name: "fuses",
        is_down: false,
        numbers: Numbers::Two { most: ANY },
        what: What::Run(
            "signal go;
process Holder; dcl held Integer := 0, later Duration := 1000000; timer far(Integer);
start; nextstate holding;
state holding;
  provided held < n; task held := held + 1, later := later + 1; set(now + later, far(held)); nextstate -;
  provided held = n; output go to Worker; nextstate full;
state full; endstate;
endprocess;
process Worker; dcl turn Integer := 0; timer near := 5;
start; nextstate idle;
state idle; input go; nextstate working;
state working; provided turn < h; task turn := turn + 1; set(near); reset(near); nextstate -;
endprocess;
",
        ),
    },
    // A sender fills a port with ordinary signals and then with as many of a priority input; meanwhile all are taken, one
    // by one.
    Thing {
        name: "priority",
        is_down: false,
        numbers: Numbers::One,
        what: What::Run(
            "signal common(Integer), urgent(Integer);
process Source; dcl sent Integer := 0, row Integer;
start; nextstate open;
state open; provided sent < twice; task row := 0;
  again: decision sent < n; (true): output common(sent) to Sink; (false): output urgent(sent) to Sink; enddecision;
  task sent := sent + 1, row := row + 1;
  decision row < most and sent < twice; (true): join again; (false): enddecision; nextstate -;
endprocess;
process Sink; dcl last Integer;
start; nextstate open;
state open; priority input urgent(last); nextstate -; input common(last); nextstate -;
endprocess;
",
        ),
    },
    // A sender sends by turns a signal that is saved and one of a priority input; the latter are taken.
    Thing {
        name: "turns",
        is_down: false,
        numbers: Numbers::One,
        what: What::Run(
            "signal kept(Integer), urgent(Integer);
process Source; dcl sent Integer := 0, row Integer;
start; nextstate open;
state open; provided sent < n; task row := 0;
  again: output kept(sent), urgent(sent) to Sink; task sent := sent + 1, row := row + 1;
  decision row < 2000 and sent < n; (true): join again; (false): enddecision; nextstate -;
endprocess;
process Sink; dcl last Integer;
start; nextstate open;
state open; save kept; priority input urgent(last); nextstate -;
endprocess;
",
        ),
    },
    // An instance sets timers whose signals wait in its port; then it sets and resets one after the other of them again.
    Thing {
        name: "resets",
        is_down: false,
        numbers: Numbers::Two { most: ANY },
        what: What::Run(
            "process Holder; dcl held Integer := 0, turn Integer := 0; timer late(Integer);
start; nextstate holding;
state holding; save late;
  provided held < n; set(now, late(held)); task held := held + 1; nextstate -;
  provided held = n and turn < h;
    set(now, late(turn mod n)); reset(late(turn mod n)); set(now, late(turn mod n)); task turn := turn + 1;
    nextstate -;
endprocess;
",
        ),
    },
    // A ring of 999 stations, of which the first ones get a token each.
    Thing {
        name: "tokens",
        is_down: false,
        numbers: Numbers::Two { most: 999 },
        what: What::Ring(
            "signal token(Integer), next(Pid);
process Maker; dcl first, last Pid, made Integer := 1;
start; create Station; task first := offspring, last := offspring; output token(h) to offspring; nextstate making;
state making;
  provided made < 999; create Station; output next(offspring) to last;
    decision made < n; (true): output token(h) to offspring; (false): enddecision;
    task last := offspring, made := made + 1; nextstate -;
  provided made = 999; output next(first) to last; stop;
endprocess;
",
        ),
    },
    // So many sources send so many signals each into one port.
    Thing {
        name: "crowd",
        is_down: false,
        numbers: Numbers::Two { most: 999 },
        what: What::Run(
            "signal drop(Integer);
process Source (n); dcl sent Integer := 0;
start; nextstate open;
state open; provided sent < h; output drop(sent) to Sink; task sent := sent + 1; nextstate -;
endprocess;
process Sink; dcl last Integer;
start; nextstate open;
state open; input drop(last); nextstate -;
endprocess;
",
        ),
    },
    Thing {
        name: "states",
        is_down: false,
        numbers: Numbers::Bytes,
        what: What::Check(Dense::States),
    },
    Thing {
        name: "tasks",
        is_down: false,
        numbers: Numbers::Bytes,
        what: What::Check(Dense::Tasks),
    },
    Thing {
        name: "processes",
        is_down: false,
        numbers: Numbers::Bytes,
        what: What::Check(Dense::Processes),
    },
    Thing {
        name: "decisions",
        is_down: false,
        numbers: Numbers::Bytes,
        what: What::Check(Dense::Decisions),
    },
];
