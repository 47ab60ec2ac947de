//! Sentences about what is open where it can't be, and about words that end or begin nothing there.

use crate::lines::{Around, mark_of};
use sdl_tree::Mark;

/// Gives the sentence about what is still open at a place where this word has to end it. None if the end isn't known to
/// be missing.
pub fn missing_sentence(around: &Around<'_>, end: Mark) -> Option<&'static str> {
    if !is_missing(around, end) {
        return None;
    }
    match end {
        Mark::EndSystem => Some("`endsystem` is missing at the end of the text."),
        Mark::EndBlock if mark_of(around.at) == Some(Mark::Block) => Some(
            "`endblock` is missing: a block is still open here, and a block has no blocks in it.",
        ),
        Mark::EndBlock => Some("`endblock` is missing: a block is still open here."),
        Mark::EndProcess => Some("`endprocess` is missing: a process is still open here."),
        Mark::EndChannel => Some("`endchannel` is missing: a channel is still open here."),
        Mark::EndDecision if mark_of(around.at) == Some(Mark::Open) => Some(
            "`enddecision` is missing, or this answer comes too late: nothing follows the `else` part of a decision.",
        ),
        Mark::EndDecision => Some("`enddecision` is missing: a decision is still open here."),
        Mark::Close => Some("`)` is missing: a parenthesis is still open here."),
        _ => None,
    }
}

/// What is said of the place at which something opens that this word has to end. None if its end isn't known to be
/// missing.
pub fn opening_sentence(around: &Around<'_>, end: Mark) -> Option<&'static str> {
    if !is_missing(around, end) {
        return None;
    }
    match end {
        Mark::EndBlock => Some("The block begins here:"),
        Mark::EndProcess => Some("The process begins here:"),
        Mark::EndChannel => Some("The channel begins here:"),
        Mark::EndDecision => Some("The decision begins here:"),
        Mark::Close => Some("It opens here:"),
        _ => None,
    }
}

/// Whether the word at a place shows that an end is missing before it: it belongs outside of what is open.
fn is_missing(around: &Around<'_>, end: Mark) -> bool {
    if around.at.is_none() {
        return true;
    }
    match (end, mark_of(around.at)) {
        (Mark::Close, Some(Mark::Assign)) => around.leading != Some(Mark::Set),
        (Mark::Close, Some(Mark::Semicolon)) => true,
        (Mark::EndChannel, Some(Mark::Signal | Mark::SignalList | Mark::Synonym)) => true,
        (Mark::EndDecision, Some(Mark::Open)) => true,
        (_, Some(mark)) => is_outside(mark, end),
        (_, None) => false,
    }
}

/// Whether a word belongs outside of what another one ends.
fn is_outside(mark: Mark, end: Mark) -> bool {
    match (depth_of(mark), inner_depth(end)) {
        (Some(depth), Some(inner)) => depth < inner,
        _ => false,
    }
}

/// Whether a word ends something that isn't open where another end has to be.
pub fn ends_nothing(mark: Mark, end: Mark) -> bool {
    match (inner_depth(mark), inner_depth(end)) {
        (Some(depth), Some(inner)) => depth > inner,
        _ => false,
    }
}

/// How deep the words are in what this one ends: those of the system 0.
fn inner_depth(end: Mark) -> Option<u8> {
    match end {
        Mark::EndSystem => Some(0),
        Mark::EndBlock => Some(1),
        Mark::EndProcess | Mark::EndChannel => Some(2),
        Mark::EndState | Mark::EndConnection => Some(3),
        Mark::EndDecision => Some(4),
        _ => None,
    }
}

/// How deep a word is that begins or ends a part of something.
fn depth_of(mark: Mark) -> Option<u8> {
    match mark {
        Mark::Block => Some(0),
        Mark::Process | Mark::Channel | Mark::Connect => Some(1),
        Mark::State | Mark::Connection | Mark::Start => Some(2),
        Mark::Input | Mark::Save | Mark::Provided | Mark::Priority => Some(3),
        _ => inner_depth(mark),
    }
}

/// Gives the sentence about a word that belongs into a process, at a place in a system or a block.
pub fn outside_sentence(mark: Mark) -> Option<&'static str> {
    match mark {
        Mark::Dcl | Mark::Fpar | Mark::Timer | Mark::SignalSet => Some(
            "A process defines this for itself: move it to the beginning of one, after `process P;`.",
        ),
        Mark::Start
        | Mark::State
        | Mark::Connection
        | Mark::Input
        | Mark::Save
        | Mark::Provided
        | Mark::Task
        | Mark::Output
        | Mark::Set
        | Mark::Reset
        | Mark::Create
        | Mark::Decision
        | Mark::NextState
        | Mark::Stop
        | Mark::Join => Some(
            "What is done belongs to a process: write `process P;` before its start, and `endprocess;` at its end.",
        ),
        Mark::Env => Some(
            "The environment isn't defined. A channel names it: `channel c from env to P with a; endchannel;`.",
        ),
        Mark::Connect => Some(
            "A `connect` belongs to a block: it joins channels of the system with channels in it.",
        ),
        _ => None,
    }
}
