//! Texts of some size, which are checked: as many parts of one shape as fit between a head and a tail.

use std::alloc::{AllocError, Global};

/// The head of a text of many states.
const STATES: &str =
    "system S;\nsignal a, b(Integer), c;\nprocess P;\ndcl n Integer := 0;\nstart; nextstate s0;\n";

/// The end of a process, and of its system.
const END: &str = "endprocess;\nendsystem;\n";

/// The head of a text of one long transition.
const ONE_LONG: &str =
    "system S; signal a, v(Integer);\nprocess P; dcl n, m Integer := 0;\nstart; nextstate s; state s; input a;\n";

/// The tail of one.
const ONE_LONG_END: &str = "nextstate -;\nendstate;\nendprocess;\nendsystem;\n";

/// How many states a process has at most.
const MOST_STATES: u64 = 990;

/// How many processes a text of many has.
const PROCESSES: u64 = 190;

/// A shape of texts of any size.
#[derive(Clone, Copy)]
pub enum Dense {
    /// Processes of many states each, with inputs and saves.
    States,
    /// One long transition of tasks and outputs.
    Tasks,
    /// Many processes, each with as many states of `input *` as fit.
    Processes,
    /// One long transition of decisions.
    Decisions,
}

impl Dense {
    /// The text of so many bytes.
    pub fn text(self, alloc: Global, bytes: u64) -> Result<String, AllocError> {
        match self {
            Dense::States => self.filled(alloc, STATES, END, bytes),
            Dense::Tasks | Dense::Decisions => self.filled(alloc, ONE_LONG, ONE_LONG_END, bytes),
            Dense::Processes => processes(alloc, bytes),
        }
    }

    /// As many parts as fit between a head and a tail.
    fn filled(
        self,
        alloc: Global,
        head: &str,
        tail: &str,
        bytes: u64,
    ) -> Result<String, AllocError> {
        let mut text = String::from_str(alloc, head)?;
        for turn in 0..bytes {
            let part = self.part(alloc, turn)?;
            let longer = text.len().saturating_add(part.len());
            if longer.saturating_add(tail.len()) as u64 > bytes {
                break;
            }
            text.push_str(part.as_str())?;
        }
        text.push_str(tail)?;
        Ok(text)
    }

    /// The part of this number.
    fn part(self, alloc: Global, turn: u64) -> Result<String, AllocError> {
        match self {
            Dense::States => state(alloc, turn),
            Dense::Tasks => String::from_str(
                alloc,
                "task n := (n + 1) * 2 - m / 3, m := n mod 7; output v(n);\n",
            ),
            Dense::Processes => format!(in alloc;
                "state s{turn}; input *; task n := n + {turn}; nextstate s0; endstate;\n"
            ),
            Dense::Decisions => format!(in alloc;
                "decision n; ({turn}): task n := {turn}; (1:5, > 90): output v(n); else: enddecision;\n"
            ),
        }
    }
}

/// The state of this number among those of all processes; the first of a process begins it, and ends the one before.
fn state(alloc: Global, turn: u64) -> Result<String, AllocError> {
    let number = turn % MOST_STATES;
    let mut part = String::new(alloc);
    if number == 0 && turn > 0 {
        let process = turn / MOST_STATES;
        write!(
            part,
            "endprocess;\nprocess P{process};\ndcl n Integer := 0;\nstart; nextstate s0;\n"
        )?;
    }
    write!(
        part,
        "state s{number}; input a; task n := n + 1; nextstate s0; input b(n); nextstate -; save c;\nendstate;\n"
    )?;
    Ok(part)
}

/// Many processes, in as many bytes each.
fn processes(alloc: Global, bytes: u64) -> Result<String, AllocError> {
    let mut text = String::from_str(alloc, "system S;\nsignal a, b, c(Integer), d;\n")?;
    for number in 0..PROCESSES {
        let head = format!(in alloc;
            "process P{number};\ndcl n Integer := {number};\nstart; nextstate s0;\n"
        )?;
        let each = bytes / PROCESSES;
        let process = Dense::Processes.filled(alloc, head.as_str(), "endprocess;\n", each)?;
        text.push_str(process.as_str())?;
    }
    text.push_str("endsystem;\n")?;
    Ok(text)
}
