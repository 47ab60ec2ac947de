//! Sentences about the rules that a specification breaks.

use build_names::Rule;
use explain_syntax::{Advice, NO_MEMORY};
use sdl_build::BuildError;
use std::alloc::{AllocError, Global};

/// Gives the advice on a specification that has no system.
pub fn build_advice(alloc: Global, error: &BuildError) -> Result<Advice, AllocError> {
    match error {
        BuildError::Broken { rule, word } => {
            let word = word.text.as_str();
            Advice::about(alloc, word, broken_sentence(*rule, word))
        }
        BuildError::Memory => Advice::alone(alloc, NO_MEMORY),
    }
}

/// Gives the sentence about the word at which a rule is broken.
fn broken_sentence(rule: Rule, word: &str) -> &'static str {
    match rule {
        Rule::Unknown => {
            "stands for nothing here: no definition of the kind that is wanted has this name, in its own scope \
             or in one around it. Define it, or mend the spelling; capitals count."
        }
        Rule::Duplicate => {
            "is defined in this scope already. Give one of the two another name, or take one away."
        }
        Rule::Sort => {
            "doesn't fit here: its sort, or the number of its values, isn't what this place wants. Compare it \
             with the definition of what it is given to."
        }
        Rule::TwiceInState => {
            "stands in this state already, or a signal of it does: a state says but once what it does with a signal, \
             by an input, a priority input or a save. Take one of the two away."
        }
        Rule::NoState => no_state(word),
        Rule::NoLabel => {
            "is no label of this process, and a join can't leave its process. Write `NAME:` before the action to \
             go on at, or a connection of this name, or mend the spelling. A state follows `nextstate`."
        }
        Rule::NoRoute => {
            "reaches nobody: no path leads it from here to a process or to the environment. Name it after `with` \
             in a channel that begins here, in a block also in one outside that `connect` joins to it, or say by `to` \
             who gets it."
        }
        Rule::BadCount => bad_count(word),
        Rule::NoEnd => no_end(word),
        Rule::Limit => {
            "is one more than this tool takes: 1,000 signals with timers, 16 parameters, 200 processes, 1,000 \
             instances at the start, 1,000 states of a process, 50,000 statements. Leave something out."
        }
    }
}

/// Gives the sentence about the word with which a way begins that has no end.
fn no_end(word: &str) -> &'static str {
    if word.eq_ignore_ascii_case("provided") {
        "begins a path that runs off its end. A condition of an input comes after it: `input a; provided n > 0; \
         nextstate -;`. Else let each way end with `nextstate`, `stop` or `join`."
    } else {
        "begins a path that runs off its end. Let each way through it end with `nextstate`, `stop` or `join`, \
         those too that go on after an `enddecision`."
    }
}

fn no_state(word: &str) -> &'static str {
    if word == "-" {
        "means the state from which the transition began, and the start, which can come here, begins in none. Name \
         a state instead."
    } else {
        "is no state of this process: no `state` names it. Add one, or mend the spelling; capitals count. A label \
         follows `join`."
    }
}

fn bad_count(word: &str) -> &'static str {
    if word == "(" {
        "opens numbers of instances that don't fit one another: the first, of those at the start, is 0 at least and \
         no more than the second, the greatest number, which is 1 at least."
    } else {
        "begins a constant that has no value, or one that is negative where a natural number is wanted. Look for a \
         division by zero, a result past 64 bits or a synonym in terms of itself."
    }
}
