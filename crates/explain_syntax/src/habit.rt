//! Sentences about words of other languages, at a place where no name can be.

/// Gives the sentence about a word of another language, which is in lower case.
pub fn habit_sentence(word: &str) -> Option<&'static str> {
    for (habit, sentence) in &HABITS {
        if *habit == word {
            return Some(*sentence);
        }
    }
    None
}

pub const LOOP: &str =
    "There are no loops. A `join` goes back to a label before an action: `again: task n := n + 1; decision n < 3; \
     (true): join again; else: enddecision;`.";

const VARIABLE: &str =
    "A process defines its variables before its `start`: `dcl n Integer := 0;`. A constant is a synonym: `synonym k \
     Integer = 5;`.";

const SEND: &str = "An output sends a signal: `output a;`, or `output a(1) to p;`.";

const RECEIVE: &str = "A state takes a signal by an input: `state s; input a; nextstate -;`.";

const CONDITION: &str =
    "A condition follows an input and its `;`: `input a; provided n > 0; nextstate -;`.";

const ENTRY: &str =
    "A state has no actions of its own. Do this in each transition that leads to it, or in a connection to which these \
     join.";

const WAIT: &str =
    "A transition can't wait. Set a timer, and take its signal in a state: `set(now + 5, t);`, and there `input t;`.";

const JUMP: &str =
    "`join NAME;` goes on after the label `NAME:`, and `nextstate NAME;` in a state.";

const BREAK: &str =
    "Nothing leaves a part of a decision early: it ends with a terminator, or goes on after its `enddecision`.";

const END: &str = "`stop;` ends the instance.";

pub const CHOICE: &str =
    "A `decision` chooses: `decision n; (1): stop; (2:5): nextstate s; else: nextstate -; enddecision;`.";

const ANSWER: &str =
    "A decision has answers in parentheses, and `else` as its last part: `decision n; (1): stop; else: nextstate -; \
     enddecision;`.";

const FUNCTION: &str =
    "There are no functions and no procedures. A connection, to which joins lead, shares a part of transitions.";

const CREATE: &str =
    "`create P;` makes an instance of the process `P`. Then `offspring` is its Pid.";

const PRINT: &str =
    "Nothing is printed but the trace, in which each task and each output has a line. Send a signal to the \
     environment: `output a;`.";

const PACKAGE: &str =
    "There are no packages and no other files: a system has all that it needs in its text.";

const PROCESS: &str =
    "A process says what its instances do: `process P; start; stop; endprocess;`.";

pub const SORT: &str =
    "No sorts can be defined. There are Integer, Natural, Boolean, Pid, Time and Duration; write a variable for each \
     field.";

const BEGIN: &str =
    "There is no `begin`: a process begins with its `start`, and a state with `state NAME;`.";

const MODE: &str =
    "A parameter is its name and its sort, without `in` or `out`: `fpar n Integer;`.";

const ALL: &str = "An output goes to one receiver. Write one for each.";

const SIGNAL: &str = "`signal a, b(Integer);` defines signals.";

const START: &str = "A process begins with its start: `start; nextstate s;`.";

const EQUAL: &str =
    "`=` asks whether two values are equal, and `/=` whether they differ: `decision n = 0;`.";

const NOTHING: &str =
    "Nothing stands for doing nothing: write the terminator alone, as in `nextstate -;`.";

/// Words of other languages, in lower case, and what is written for them.
static HABITS: [(&str, &str); 104] = [
    ("while", LOOP),
    ("for", LOOP),
    ("foreach", LOOP),
    ("loop", LOOP),
    ("do", LOOP),
    ("until", LOOP),
    ("repeat", LOOP),
    ("let", VARIABLE),
    ("var", VARIABLE),
    ("const", VARIABLE),
    ("int", VARIABLE),
    ("integer", VARIABLE),
    ("natural", VARIABLE),
    ("bool", VARIABLE),
    ("boolean", VARIABLE),
    ("declare", VARIABLE),
    ("variable", VARIABLE),
    ("static", VARIABLE),
    ("send", SEND),
    ("emit", SEND),
    ("raise", SEND),
    ("publish", SEND),
    ("receive", RECEIVE),
    ("recv", RECEIVE),
    ("when", CONDITION),
    ("on", RECEIVE),
    ("wait", WAIT),
    ("sleep", WAIT),
    ("delay", WAIT),
    ("after", WAIT),
    ("timeout", WAIT),
    ("goto", JUMP),
    ("jump", JUMP),
    ("continue", JUMP),
    ("goon", JUMP),
    ("become", JUMP),
    ("entry", ENTRY),
    ("break", BREAK),
    ("exit", END),
    ("quit", END),
    ("terminate", END),
    ("kill", END),
    ("halt", END),
    ("switch", CHOICE),
    ("case", CHOICE),
    ("match", CHOICE),
    ("cond", CHOICE),
    ("elsif", ANSWER),
    ("elif", ANSWER),
    ("elseif", ANSWER),
    ("default", ANSWER),
    ("otherwise", ANSWER),
    ("then", ANSWER),
    ("endif", ANSWER),
    ("fi", ANSWER),
    ("function", FUNCTION),
    ("func", FUNCTION),
    ("fn", FUNCTION),
    ("def", FUNCTION),
    ("void", FUNCTION),
    ("method", FUNCTION),
    ("operator", FUNCTION),
    ("new", CREATE),
    ("spawn", CREATE),
    ("fork", CREATE),
    ("run", CREATE),
    ("print", PRINT),
    ("printf", PRINT),
    ("println", PRINT),
    ("echo", PRINT),
    ("write", PRINT),
    ("log", PRINT),
    ("use", PACKAGE),
    ("include", PACKAGE),
    ("module", PACKAGE),
    ("class", PROCESS),
    ("actor", PROCESS),
    ("agent", PROCESS),
    ("proctype", PROCESS),
    ("machine", PROCESS),
    ("struct", SORT),
    ("record", SORT),
    ("enum", SORT),
    ("typedef", SORT),
    ("array", SORT),
    ("begin", BEGIN),
    ("in", MODE),
    ("out", MODE),
    ("inout", MODE),
    ("all", ALL),
    ("broadcast", ALL),
    ("event", SIGNAL),
    ("message", SIGNAL),
    ("init", START),
    ("initial", START),
    ("is", EQUAL),
    ("equals", EQUAL),
    ("eq", EQUAL),
    ("ne", EQUAL),
    ("skip", NOTHING),
    ("pass", NOTHING),
    (
        "div",
        "`/` divides Integers, and rounds towards zero. There is no `div`.",
    ),
    (
        "modulo",
        "`mod` and `rem` give the remainder of a division.",
    ),
    ("implies", "`=>` says that one Boolean implies another."),
];
