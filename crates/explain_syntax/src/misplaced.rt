//! Sentences about words where something has to go on or to end, to which they don't belong.

use crate::lines::{Around, is_number, mark_of, name_of};
use crate::open::{ends_nothing, outside_sentence};
use sdl_tree::Mark;

/// Gives the sentence for a place where what a word ends has to go on, or that word has to stand.
pub fn end_sentence(around: &Around<'_>, end: Mark) -> Option<&'static str> {
    match (end, mark_of(around.at)) {
        (_, Some(mark)) if ends_nothing(mark, end) => Some(
            "This ends nothing: what it would end isn't open here. Take it away.",
        ),
        (Mark::EndSystem | Mark::EndBlock, Some(mark)) => outside_sentence(mark),
        (Mark::EndDecision, _) if is_bare_answer(around) => Some(
            "An answer is in parentheses: `(1): stop;`.",
        ),
        _ if continues_list(around) => Some(
            "`,` is between the names of a list, and `;` after the last one: `signal a, b;`.",
        ),
        _ => misplaced_sentence(around),
    }
}

/// Whether a name with its sort is at a place, and variables or parameters end before it.
fn follows_variables(around: &Around<'_>) -> bool {
    matches!(around.leading, Some(Mark::Dcl | Mark::Fpar))
        && mark_of(around.before) == Some(Mark::Semicolon)
        && name_of(around.at).is_some()
        && name_of(around.after).is_some()
}

/// Whether a name seems to belong to the list before it, which a semicolon has ended.
pub fn continues_list(around: &Around<'_>) -> bool {
    let is_list = matches!(
        around.leading,
        Some(
            Mark::Signal
                | Mark::SignalList
                | Mark::SignalSet
                | Mark::Dcl
                | Mark::Timer
                | Mark::Synonym
                | Mark::Fpar
        )
    );
    let goes_on = matches!(
        mark_of(around.after),
        Some(Mark::Semicolon | Mark::Comma | Mark::Open | Mark::Assign | Mark::Equal)
    );
    is_list
        && goes_on
        && mark_of(around.before) == Some(Mark::Semicolon)
        && name_of(around.at).is_some()
}

/// Whether a value is at a place that a colon follows.
fn is_bare_answer(around: &Around<'_>) -> bool {
    let is_value = is_number(around.at)
        || name_of(around.at).is_some()
        || matches!(
            mark_of(around.at),
            Some(Mark::True | Mark::False | Mark::Null)
        );
    is_value && mark_of(around.after) == Some(Mark::Colon)
}

/// Gives the sentence for a place where the start of a process has to stand.
pub fn start_sentence(around: &Around<'_>) -> Option<&'static str> {
    match mark_of(around.at) {
        Some(Mark::State | Mark::EndProcess | Mark::Connection) => Some(
            "Each process has a start before its states: `start; nextstate s;`.",
        ),
        Some(Mark::Process) => Some(
            "A process has no processes in it. Write this one before or after it.",
        ),
        None if follows_variables(around) => Some(
            "`,` is between two variables, also of two sorts: `dcl n Integer := 0, b Boolean;`.",
        ),
        Some(Mark::Fpar) => Some(
            "`fpar` comes first in a process, before `dcl`, `timer` and `signal`.",
        ),
        _ => None,
    }
}

/// Gives the sentence about a word that comes too late in a process or in a transition.
fn misplaced_sentence(around: &Around<'_>) -> Option<&'static str> {
    match mark_of(around.at)? {
        Mark::Dcl
        | Mark::Timer
        | Mark::Signal
        | Mark::Synonym
        | Mark::SignalSet
        | Mark::SignalList => Some(
            "A process has its definitions before its `start`. Move this one there.",
        ),
        Mark::Fpar => Some("`fpar` comes first in a process. Move it there."),
        mark if is_done(mark) => Some(action_sentence(around)),
        Mark::Start => Some(
            "A process has one `start`, before its states. A timer is started by `set(now + 5, t);`.",
        ),
        Mark::Input | Mark::Save | Mark::Provided | Mark::Priority if follows_end(around) => Some(
            "An input belongs to a state, and `endstate` has ended the one before. No state is in another one: write \
             `state NAME;` here, or move the input.",
        ),
        Mark::Input | Mark::Save | Mark::Provided | Mark::Priority => Some(
            "An input, a save and a `provided` belong to a state: write `state NAME;` before them.",
        ),
        Mark::Else => Some("A decision has one `else`, after its answers."),
        Mark::Semicolon if mark_of(around.before) == Some(Mark::Semicolon) => Some(
            "There is no empty statement. Take this `;` away.",
        ),
        Mark::Comment => Some("`comment` comes before the `;`: `task n := 1 comment 'first';`."),
        Mark::Null => Some(
            "`null` is a Pid, and no action. To do nothing, write the terminator alone: `nextstate -;`.",
        ),
        _ => None,
    }
}

/// Whether a word begins an action or a terminator.
fn is_done(mark: Mark) -> bool {
    matches!(
        mark,
        Mark::Task
            | Mark::Output
            | Mark::Set
            | Mark::Reset
            | Mark::Create
            | Mark::Decision
            | Mark::NextState
            | Mark::Stop
            | Mark::Join
    )
}

/// Gives the sentence about an action or a terminator that is in no transition.
fn action_sentence(around: &Around<'_>) -> &'static str {
    if around.leading == Some(Mark::Save) {
        "Nothing is done at a save: it leaves the signal where it is, for the next state. Write an input, if something \
         is to be done."
    } else if follows_terminator(around) {
        "Nothing follows a `nextstate`, `stop` or `join` in its transition. Move this before it."
    } else {
        "What is done belongs to a transition. Write before this what begins one: `start;`, `input a;` or \
         `provided n > 0;`."
    }
}

/// Whether the words before a place end a state.
fn follows_end(around: &Around<'_>) -> bool {
    mark_of(around.earlier) == Some(Mark::EndState)
        || mark_of(around.earliest) == Some(Mark::EndState)
}

/// Whether the words before a place are a terminator.
fn follows_terminator(around: &Around<'_>) -> bool {
    let begins = mark_of(around.earliest);
    mark_of(around.earlier) == Some(Mark::Stop)
        || begins == Some(Mark::NextState)
        || begins == Some(Mark::Join)
}
